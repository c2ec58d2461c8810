// The import program's reading and writing: SFC text from `sfc.txt`, the answer, the chart's text and the map of names to standard output. All that
// decides an answer is in `sfc`.
#![tactic(auto)]

use line::Head;
use naming::Names;
use sfc::Imported;
use std::rt::Files;

// One byte more than an SFC text may have: enough to know that it is too long.
const TEXT: usize = Head::TEXT + 1;

// A whole run. What cannot be written is lost.
pub fn serve(rt: &(impl Files + Print)) {
    let mut text = [0u8; TEXT];
    let n = files::read_file(rt, b"sfc.txt", &mut text);
    let mut room = [0u8; Imported::ROOM];
    show(rt, &text[..n], &mut room);
}

// The answer to a text with so much room lent; on success the chart's text and the map.
pub fn show(rt: &impl Print, text: &[u8], room: &mut [u8]) {
    let brought = sfc::import(text, room);
    let answer = Imported::from(brought);
    let _ = println!(rt; "ans={}", answer.number);
    let _ = println!(rt; "n={}", answer.line);
    if let Ok(length) = brought {
        let _ = rt.write_all(room.get(..length).unwrap_or(room));
        show_map(rt, text);
    }
}

fn show_map(rt: &impl Print, text: &[u8]) {
    let m = sfc::names(text);
    show_names(rt, text, m.steps, "step");
    show_names(rt, text, m.inputs, "input");
    show_names(rt, text, m.outputs, "output");
}

// `KEY=N:NAME`, each name in the spelling of its first appearance.
fn show_names(rt: &impl Print, text: &[u8], names: Names, key: &str) {
    let last = naming::counted(names);
    for (i, word) in names.words[..last].iter().enumerate() {
        let _ = print!(rt; "{key}={i}:");
        let _ = rt.write_all(tokens::word_of(text, *word));
        let _ = rt.write_all(b"\n");
    }
}
