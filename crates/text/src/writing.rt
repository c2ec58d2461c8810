// Bytes written into lent room. A byte that lies past the room is counted and not written.
// Room and place stay two parameters: each function that took a struct of them, here, in rig_log and in writer, would owe a clause that it still holds the same room.
ghost use Rattle.std.specs.Prelude.{[], ◌∷◌, ◌≡◌, ◌+◌, ◌≤◌, length};
ghost use Rattle.text.specs.Decimal.{decimal};
ghost use Rattle.text.specs.Writing.{Put, keyed};

// A key, a number and byte 10.
pub fn put_line(room: &mut [u8], at: usize, key: &[u8], v: u64) -> usize
    requires { (at ≤ 80000000) × (length key.now ≤ 20) }
    ensures put { Put at (keyed key.now v) room.old room.new result }
    ensures upper_bound { result ≤ at + 50 }
{
    let a = put_bytes(room, at, key);
    let b = put_decimal(room, a, v);
    put_byte(room, b, b'\n')
}

// An index behind its test: of what is written through the result of `get_mut` the check knows nothing.
pub fn put_byte(room: &mut [u8], at: usize, b: u8) -> usize
    requires { at ≤ 100000000 }
    ensures { Put at (b ∷ []) room.old room.new result }
{
    if at < room.len() {
        room[at] = b;
    }
    at + 1
}

pub fn put_bytes(room: &mut [u8], at: usize, s: &[u8]) -> usize
    requires { at + length s.now ≤ 100000000 }
    ensures { Put at s.now room.old room.new result }
{
    let mut end = at;
    for b in s {
        end = put_byte(room, end, *b);
    }
    end
}

// The digits of a number: those of its tenth, and then its last.
pub fn put_decimal(room: &mut [u8], at: usize, v: u64) -> usize
    requires { at + length (decimal v) ≤ 100000000 }
    ensures { Put at (decimal v) room.old room.new result }
{
    if v < 10 {
        return put_byte(room, at, digit(v));
    }
    let e = put_decimal(room, at, v / 10);
    put_byte(room, e, digit(v % 10))
}

fn digit(v: u64) -> u8
    requires { v ≤ 9 }
    ensures { result ≡ 48 + v }
{
    b'0' + v as u8
}
