// Brings in the SFC texts of standard input, each with its own room, and writes what the import program would write. The cases and what this must
// write come from two implementations that were made from the paper alone and agree.
#![tactic(auto)]

use casebook::Head;

// The most room that a case lends.
const ROOM: usize = 65_536;

fn main(rt: HostRuntime) {
    casebook::run_input(&rt, |text, head| run_case(&rt, text, head));
}

// A case's numbers are the bytes of its text and the room lent.
fn run_case(rt: &impl Print, text: &[u8], head: Head) -> usize {
    let end = casebook::sum(head.end, head.first);
    let mut room = [0u8; ROOM];
    lend(
        rt,
        casebook::part(text, head.end, end),
        &mut room,
        head.second as usize,
    );
    end
}

fn lend(rt: &impl Print, text: &[u8], room: &mut [u8], lent: usize) {
    if let Some(room) = room.get_mut(..lent) {
        clerk::show(rt, text, room);
    }
}
