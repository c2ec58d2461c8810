// Runs the texts of standard input through the chart layer's check and lookup. bench/oracle/charts.py wrote the cases and, from document 01
// alone, what this program must print.
#![tactic(auto)]

ghost use Rattle.std.specs.Prelude.{◌<◌, ◌≤◌, length, IfSome};

use arrayvec::ArrayVec;

// More bytes than the file of cases has.
const INPUT: usize = 524_288;

const PAGE: usize = 4_096;

// A page with more bytes than this is written: a line more always has room.
const FULL: usize = 3_000;

// A case: the chart's text, the number of the move whose condition is looked up, and the place after the case.
#[derive(Drop)]
struct Case<'a> {
    text: &'a [u8],
    sought: u32,
    end: usize,
}

fn main(rt: HostRuntime) {
    let mut input = [0u8; INPUT];
    run_input(&rt, &mut input);
}

fn run_input(rt: &(impl Input + Print), input: &mut [u8; INPUT]) {
    let n = files::read_front(&mut rt.reader(), input);
    run(rt, &input[..n]);
}

// What is printed is gathered on a page, which is written where it is nearly full and after the last case. What is no case ends the run, and
// what stands on the page then is not written.
fn run(rt: &impl Print, s: &[u8]) {
    let mut page = ArrayVec::new();
    let mut at = 0;
    let mut number: u64 = 0;
    while at < s.len() {
        let Some(case) = case_at(s, at) else {
            return;
        };
        number = number.saturating_add(1);
        answer(&mut page, number, &case);
        if FULL < page.len() {
            flush(rt, &mut page);
        }
        at = case.end;
    }
    flush(rt, &mut page);
}

// A line `BYTES:K`, the text's bytes and a byte 10.
fn case_at(s: &[u8], at: usize) -> Option<Case>
    ensures { IfSome result (λ c. (at < c.end) × (c.end ≤ length s.now)) }
{
    let (bytes, at) = casebook::field_at(s, at)?;
    let (sought, at) = casebook::field_at(s, at)?;
    let (text, end) = casebook::bytes_at(s, at, bytes)?;
    Some(Case { text, sought, end })
}

// One case's line, put on the page after what is there.
fn answer(page: &mut ArrayVec<u8, PAGE>, number: u64, case: &Case) {
    let verdict = chart::Verdict::from(chart::check(case.text));
    put_number(page, number);
    put(page, b" ans=");
    put_number(page, u64::from(verdict.number));
    put(page, b" n=");
    put_number(page, u64::from(verdict.line));
    put(page, b" cond=");
    put(page, chart::lookup(case.text, case.sought));
    put(page, b"\n");
}

fn put_number(page: &mut ArrayVec<u8, PAGE>, n: u64) {
    let mut digits = [0u8; 20];
    let k = text::put_decimal(&mut digits, 0, n);
    put(page, digits.get(..k).unwrap_or(b""));
}

// Bytes that the page has no room for are dropped; a page is written long before.
fn put(page: &mut ArrayVec<u8, PAGE>, s: &[u8]) {
    for b in s {
        if !page.is_full() {
            page.push(*b);
        }
    }
}

// What cannot be written is lost.
fn flush(rt: &impl Print, page: &mut ArrayVec<u8, PAGE>) {
    let _ = rt.write_all(page.as_slice());
    page.clear();
}
