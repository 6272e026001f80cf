// What the writer of an entry has seen of it itself. The functions here do nothing: the proof of a function that
// calls one may use what it ensures.
ghost use Rattle.std.specs.Prelude.{Bool, List, ◌+◌, ℕ};
ghost use Rattle.store_rule.specs.Passes.{basis, view};
ghost use Rattle.store_rule.specs.declared.store.Pass.{Pass};
ghost use Rattle.store_rule.specs.declared.store.Store.{Store};
ghost use Rattle.rock_writer.specs.Appending.{Appended};
ghost use Rattle.rock_writer.specs.Beginning.{Began, begun};
ghost use Rattle.rock_writer.specs.Entries.{Entry, WritesAs, with_taken};
ghost use Rattle.store_serve.specs.Adding.{Added, taken_on};
ghost use Rattle.store_serve.specs.Showing.{HasShown};

use rock_disk::Cell;
use store_rule::Origin;

/// A pass that writes an entry has seen how many slots of it are published, and the entry's key and offer, where
/// any are: so it begins (`began`), and so each call leaves it that takes bytes (`appended`, `added`).
pub fn writers_see_their_slots<C: Cell, O: Origin>()
    ensures began { (s : Store C O) (t offer version : ℕ) (url : List ℕ) (durable : Bool) (p q : Pass C)
        → Began C.tells C.state O.offers s t offer url durable p q version
        → HasShown (basis C.tells C.state O.offers s) (begun C.tells C.state O.offers s t offer url durable p q version) (view q).seen }
    ensures appended { (s : Store C O) (t count : ℕ) (e : Entry) (bytes : List ℕ) (p q : Pass C) → WritesAs C.tells C.state O.offers s p t e
        → HasShown (basis C.tells C.state O.offers s) e (view p).seen → Appended C.tells C.state O.offers s t e bytes p q count
        → HasShown (basis C.tells C.state O.offers s) (with_taken e (e.taken + count)) (view q).seen }
    ensures added { (s : Store C O) (t total : ℕ) (e : Entry) (p q : Pass C) → WritesAs C.tells C.state O.offers s p t e
        → HasShown (basis C.tells C.state O.offers s) e (view p).seen → Added C.tells C.state O.offers s t e p q total
        → HasShown (basis C.tells C.state O.offers s) (taken_on e total) (view q).seen }
{}
