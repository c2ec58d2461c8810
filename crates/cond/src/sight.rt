// What the readers look at.
ghost use Rattle.std.specs.Prelude.{◌≡◌, ◌<◌, ◌≤◌, length};
ghost use Rattle.text.specs.Bytes.{byte_at};
ghost use Rattle.cond.specs.Bounds.{longest};
ghost use Rattle.cond.specs.Packed.{Sees};

use crate::{Condition, Declared, View};

// All that the readers look at: a condition's bytes with zeros after them, the view, and what the chart declares.
#[derive(Drop)]
pub(crate) struct Sight<'a> {
    pub(crate) bytes: [u8; Condition::BYTES],
    pub(crate) view: &'a View,
    pub(crate) declared: Declared,
}

impl<'a> Sight<'a> {
    // Of a text of at most 64 bytes. A reference to its copy is one word, and the text's is two. The copy is made in place, by a loop:
    // copy_from_slice goes by a second array, 80 bytes of stack more.
    pub(crate) fn of(text: &[u8], view: &'a View, declared: Declared) -> Self
        requires { length text.now ≤ longest }
        ensures { Sees text.now view.now declared result }
    {
        let mut sight = Sight {
            bytes: [0; Condition::BYTES],
            view,
            declared,
        };
        for (i, b) in text.iter().enumerate() {
            sight.bytes[i] = *b;
        }
        sight
    }

    // The byte at a place of a condition's copy. A byte other than 0 lies within it.
    pub(crate) fn byte(&self, at: usize) -> u8
        ensures { (result ≡ byte_at self.now.bytes at) × (0 < result → at < longest) }
    {
        if at < Condition::BYTES {
            self.bytes[at]
        } else {
            0
        }
    }
}
