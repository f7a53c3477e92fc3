// The codes of a query's NEAR chains and operators, pushed one by one.
ghost use Rattle.std.specs.Prelude.{◌≡◌};
ghost use Rattle.query.specs.Levels.{push_code};

use crate::Ops;

impl Ops {
    // Puts one code more; past the end nothing is stored. A query of at most 16 words never comes there.
    pub(crate) fn push(&mut self, code: u8)
        ensures { self.new ≡ push_code self.old code }
    {
        if crate::MAX_CODES <= self.len {
            return;
        }
        self.codes[self.len] = code;
        self.len += 1;
    }
}
