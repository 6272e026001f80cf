// What holds of tabs. The functions here do nothing: the proof of a function that calls one may use what it ensures.
ghost use Rattle.std.specs.Prelude.{◌≡◌, ◌≢◌, ℕ};
ghost use Rattle.core_model.specs.Tabs.{inner};
ghost use Rattle.store_rule.specs.declared.store.Pass.{Pass};
ghost use Rattle.store_rule.specs.declared.store.Store.{Store};
ghost use Rattle.rock_reader.specs.Reading.{ReadsAs, Standing};
ghost use Rattle.rock_writer.specs.Entries.{Entry, WritesAs};
ghost use Rattle.store_serve.specs.Tabs.{IsFree, Leaves};

use crate::readers_stay;
use rock_disk::Cell;
use store_rule::Origin;

/// A tab writes no more than one entry.
pub fn tabs_write_one_entry<C: Cell, O: Origin>()
    ensures { (s : Store C O) (p : Pass C) (t : ℕ) (e f : Entry) → WritesAs C.tells C.state O.offers s p t e → WritesAs C.tells C.state O.offers s p t f → e ≡ f }
{}

/// What another tab than that of a request writes or reads, it writes or reads still, and a free one is free still.
pub fn requests_keep_other_tabs<C: Cell, O: Origin>()
    ensures writes { (s : Store C O) (p q : Pass C) (t j : ℕ) (e : Entry) → Leaves C.tells C.state O.offers s t p q → j ≢ t
        → WritesAs C.tells C.state O.offers s p j e → WritesAs C.tells C.state O.offers s q j e }
    ensures reads { (s : Store C O) (p q : Pass C) (t j : ℕ) (e : Standing) → Leaves C.tells C.state O.offers s t p q → j ≢ t
        → ReadsAs C.tells C.state O.offers s p j e → ReadsAs C.tells C.state O.offers s q j e }
    ensures free { (s : Store C O) (p q : Pass C) (t j : ℕ) → Leaves C.tells C.state O.offers s t p q → j ≢ t → j ≢ inner → IsFree p j → IsFree q j }
{
    readers_stay::<C, O>();
}
