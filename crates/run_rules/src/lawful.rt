//! An example: lines that keep all rules.
ghost use Rattle.std.specs.Prelude.{◌≡◌, List, ℕ};
ghost use Rattle.line_account.specs.Alone.{alone};
ghost use Rattle.line_account.specs.Answers.{Run};
ghost use Rattle.line_account.specs.Closing.{Worker};
ghost use Rattle.line_account.specs.Rules.{KeepsRules};
ghost use Rattle.run_rules.specs.Lawful.{MayBegin, put_and_get, put_and_get_script};

/// `put` of an empty body that printed STORED with the next version, and `get` of it behind that, which printed HIT with that version and
/// no bytes, keep all rules, over any file of which no entry's version is above its counter.
pub fn a_put_and_a_get_keep_the_rules<X>()
    ensures { (r : Run X) (url : List ℕ) (w : Worker) → MayBegin r url → w.served ≡ put_and_get r url
        → KeepsRules r (put_and_get_script r url) (alone w) }
{}
