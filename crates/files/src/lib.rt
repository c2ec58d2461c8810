// Files of the programs: what a file or a descriptor holds, read into lent room. What is read, and whether a read fails, no contract can say; how
// many bytes came it does, and a failed read is an `Err`, which has none.
#![tactic(auto)]

ghost use Rattle.std.specs.Prelude.{◌≡◌, ◌≤◌, IfErr, IfOk, IfSome, length};

use std::io::{ErrorKind, Read};
use std::rt::Files;
use std::{fs, io, str};

// A read failed, after so many bytes had come.
#[derive(Clone, Copy)]
struct CutOff {
    bytes: usize,
}

// All of a file, or as much as the room takes. A file that cannot be opened, or of which any read fails, counts as empty: no part of a file is
// taken for the whole. A name that is no text opens nothing.
// The result is a count and the name is bytes, as they were: `within` speaks of every call, and a `&str` would ask more of callers.
pub fn read_file<R: Files>(rt: &R, name: &[u8], room: &mut [u8]) -> usize
    ensures within { result ≤ length room.new }
    ensures same_length { length room.new ≡ length room.old }
{
    whole_file(rt, name, room).unwrap_or(0)
}

// All of a file that opens and of which no read fails.
fn whole_file<R: Files>(rt: &R, name: &[u8], room: &mut [u8]) -> Option<usize>
    ensures within { IfSome result (λ n. n ≤ length room.new) }
    ensures same_length { length room.new ≡ length room.old }
{
    let path = str::from_utf8(name).ok()?;
    let mut file = fs::open(rt, path).ok()?;
    read_on(&mut file, room).ok()
}

// Reads until the room is full, the input ends or a read fails, and returns how many bytes came before that. They stand at the room's start.
pub fn read_front<R: Read>(input: &mut R, room: &mut [u8]) -> usize
    ensures within { result ≤ length room.new }
    ensures same_length { length room.new ≡ length room.old }
{
    read_on(input, room).unwrap_or_else(|cut| cut.bytes)
}

// Read after read, until the room is full or the input ends: how many bytes came.
fn read_on<R: Read>(input: &mut R, room: &mut [u8]) -> Result<usize, CutOff>
    ensures within { IfOk result (λ n. n ≤ length room.new) }
    ensures before { IfErr result (λ cut. cut.bytes ≤ length room.new) }
    ensures same_length { length room.new ≡ length room.old }
{
    let mut bytes = 0;
    while bytes < room.len() {
        match read_again(input, &mut room[bytes..]) {
            Ok(0) => break,
            Ok(more) => bytes += more,
            Err(_) => return Err(CutOff { bytes }),
        }
    }
    Ok(bytes)
}

// One read, made again where a signal interrupts it.
pub fn read_again<R: Read>(file: &mut R, room: &mut [u8]) -> io::Result<usize>
    ensures within { IfOk result (λ n. n ≤ length room.new) }
    ensures same_length { length room.new ≡ length room.old }
{
    for _ in 0..u64::MAX {
        match file.read(room) {
            Err(e) if e.kind() == ErrorKind::Interrupted => {}
            got => return got,
        }
    }
    Err(io::Error::from(ErrorKind::Interrupted))
}
