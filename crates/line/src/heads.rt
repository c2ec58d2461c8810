// The six lines of the head: 01, "`chart=1`, `steps=N`, `initial=LIST`, `inputs=M`, `outputs=K`, `limit=L`".
ghost use Rattle.std.specs.Prelude.{◌≤◌};
ghost use Rattle.text.specs.Bytes.{byte_at};
ghost use Rattle.text.specs.Numbers.{number};
ghost use Rattle.line.specs.Shape.{list_at, alone, initial_line, head_shape};
ghost use Rattle.line.specs.Steps.{Placeless, NumberOf, tail_shape};

use crate::list::list_at;
use crate::shapes::alone;
use crate::{Head, Kind, Known, Row};
use cond::{Fault, lower};

impl Known {
    // The number of a line of a kind, from a place on, which goes from `low` to `high`. Inlined, the kind's place is a constant: 30 instructions less for each line.
    #[inline(always)]
    fn number(
        &mut self,
        w: &[u8],
        from: usize,
        kind: Kind,
        low: u32,
        high: u32,
    ) -> Result<u32, Fault>
        ensures { NumberOf kind low high (alone w.now (number 7 (byte_at w.now) from)) self.old self.new result }
    {
        let v = alone(w, from).ok_or(Fault::Shape)?;
        let found = Fault::Bound.given(!((low <= v) & (v <= high)));
        self.enter(kind, found)?;
        Ok(v)
    }

    fn initial_line(&mut self, w: &[u8], from: usize) -> Result<Row, Fault>
        ensures { Placeless (initial_line w.now (list_at w.now from)) self.old self.new result }
    {
        let (x, e) = list_at(w, from, self.steps).ok_or(Fault::Shape)?;
        if e != w.len() {
            return Err(Fault::Shape);
        }
        let list = Fault::Bound.given((x.low == 0) | !x.rising);
        let found = lower(list, Fault::Undeclared.given(x.undeclared));
        self.enter(Kind::Initial, found)?;
        self.initial = x.word;
        Ok(Row::Nothing)
    }

    // A line with a key of the head after `initial`.
    fn tail_line(&mut self, w: &[u8]) -> Result<Row, Fault>
        ensures { Placeless (tail_shape w.now) self.old self.new result }
    {
        let inputs = b"inputs=";
        if text::begins(w, inputs) {
            self.inputs = self.number(w, inputs.len(), Kind::Inputs, 0, Head::ITEMS)?;
            return Ok(Row::Nothing);
        }
        let outputs = b"outputs=";
        if text::begins(w, outputs) {
            self.outputs = self.number(w, outputs.len(), Kind::Outputs, 0, Head::ITEMS)?;
            return Ok(Row::Nothing);
        }
        let limit = b"limit=";
        if text::begins(w, limit) {
            self.limit = self.number(w, limit.len(), Kind::Limit, 1, Head::LIMIT)?;
            return Ok(Row::Nothing);
        }
        Err(Fault::Shape)
    }

    // A line with a key of the head.
    pub(crate) fn head_line(&mut self, w: &[u8]) -> Result<Row, Fault>
        ensures { Placeless (head_shape w.now) self.old self.new result }
    {
        let chart = b"chart=";
        if text::begins(w, chart) {
            self.version = self.number(w, chart.len(), Kind::Version, 1, 1)?;
            return Ok(Row::Nothing);
        }
        let steps = b"steps=";
        if text::begins(w, steps) {
            self.steps = self.number(w, steps.len(), Kind::Steps, 1, Head::STEPS)?;
            return Ok(Row::Nothing);
        }
        let initial = b"initial=";
        if text::begins(w, initial) {
            return self.initial_line(w, initial.len());
        }
        self.tail_line(w)
    }
}
