// The lines that the program writes, into room that the caller lends.
ghost use Rattle.text.specs.Writing.{Fitted};
ghost use Rattle.rig_log.specs.Forms.{block, bad_line};

use crate::Block;

impl Block {
    // The block's four lines. The result is their length.
    pub fn write(self, out: &mut [u8; Block::BYTES]) -> usize
        ensures { Fitted 0 (block self.number self.count self.situation self.outputs) out.old out.new result }
    {
        let a = text::put_line(out, 0, b"ans=", u64::from(self.number));
        let b = text::put_line(out, a, b"n=", u64::from(self.count));
        let c = text::put_line(out, b, b"sit=", u64::from(self.situation));
        text::put_line(out, c, b"out=", u64::from(self.outputs))
    }
}

// The line that ends a run at a wrong line of the input.
pub fn write_bad(out: &mut [u8; Block::BYTES], line: u64) -> usize
    ensures { Fitted 0 (bad_line line) out.old out.new result }
{
    text::put_line(out, 0, b"bad=", line)
}
