// Whatever a call answers, its pass knows afterwards all that it knew before. The functions here do nothing: the
// proof of a function that calls one may use what it ensures.
ghost use Rattle.std.specs.Prelude.{Bool, List, ◌≡◌, ℕ};
ghost use Rattle.lock_word.specs.declared.cause.Cause.{Cause};
ghost use Rattle.lock_word.specs.declared.epoch.Epoch.{Epoch};
ghost use Rattle.core_model.specs.Tabs.{tab_at};
ghost use Rattle.core_model.specs.declared.moves.Move.{Move};
ghost use Rattle.core_model.specs.declared.view.View.{View};
ghost use Rattle.store_rule.specs.Ground.{Ground};
ghost use Rattle.store_rule.specs.Passes.{IsOf, view};
ghost use Rattle.store_rule.specs.Told.{Steps};
ghost use Rattle.store_rule.specs.Runs.{Added, Went};
ghost use Rattle.store_rule.specs.declared.store.Pass.{Pass};
ghost use Rattle.store_rule.specs.declared.store.Store.{Store};
ghost use Rattle.rock_writer.specs.Appending.{Appended, NotAppended};
ghost use Rattle.rock_writer.specs.Beginning.{Began, NotTaken};
ghost use Rattle.rock_writer.specs.Entries.{Entry};
ghost use Rattle.rock_writer.specs.Finishing.{Finished, NotFinished};
ghost use Rattle.rock_writer.specs.Halting.{Halts};
ghost use Rattle.rock_writer.specs.declared.fault.BeginFault.{BeginFault};
ghost use Rattle.rock_writer.specs.declared.fault.Ended.{Ended};
ghost use Rattle.rock_writer.specs.declared.fault.WriteFault.{WriteFault};
ghost use Rattle.rock_reader.specs.Closing.{Parted};
ghost use Rattle.rock_reader.specs.Opening.{OpenedEntry, Refused};
ghost use Rattle.rock_reader.specs.Reading.{Gave, ReadsAs, Standing};
ghost use Rattle.rock_reader.specs.Wanted.{SameDesk};
ghost use Rattle.rock_reader.specs.declared.answer.More.{More};
ghost use Rattle.purge_entry.specs.Purging.{Purged};
ghost use Rattle.purge_entry.specs.Wiping.{LeftToOthers, WipedAsLast};
ghost use Rattle.store_serve.specs.Growing.{GrowsTo};
ghost use Rattle.store_serve.specs.Adding.{Added as BytesAdded, NotAdded};
ghost use Rattle.store_serve.specs.Following.{GaveSome, WentOn};
ghost use Rattle.store_serve.specs.Getting.{GotAs, StoppedGetting};
ghost use Rattle.store_serve.specs.Storing.{EndedWhole, NotEnded, NotPut, PutWhole};
ghost use Rattle.store_serve.specs.declared.getting.Got.{Got};
ghost use Rattle.store_serve.specs.declared.storing.PutFault.{PutFault};

use rock_disk::Cell;
use store_rule::Origin;

/// That what a pass knows grows adds up: of no step, of some behind others, of one step, and of a run of steps.
pub fn growing_adds_up<X>()
    ensures none { (v : View X) → GrowsTo v v }
    ensures behind { (u v w : View X) → GrowsTo u v → GrowsTo v w → GrowsTo u w }
    ensures step { (g : Ground X) (v w : View X) (m : Move) (n : ℕ) → Steps g v m n w → GrowsTo v w }
    ensures run { (g : Ground X) (v w : View X) (added : Added) → Went g v added w → GrowsTo v w }
{}

/// What a pass knows grows at each answer of a call of the writer: where an entry was begun or not, bytes were
/// appended or not, and an entry was finished or not, or halted.
pub fn writing_grows<C: Cell, O: Origin>()
    ensures began { (s : Store C O) (t offer version : ℕ) (url : List ℕ) (durable : Bool) (p q : Pass C)
        → Began C.tells C.state O.offers s t offer url durable p q version → GrowsTo (view p) (view q) }
    ensures not_taken { (g : Ground (List ℕ)) (t a : ℕ) (v w : View (List ℕ)) (fault : BeginFault) → NotTaken g t a v fault w → GrowsTo v w }
    ensures appended { (s : Store C O) (t count : ℕ) (e : Entry) (bytes : List ℕ) (p q : Pass C)
        → Appended C.tells C.state O.offers s t e bytes p q count → GrowsTo (view p) (view q) }
    ensures not_appended { (s : Store C O) (t : ℕ) (e : Entry) (bytes : List ℕ) (fault : WriteFault) (p q : Pass C)
        → NotAppended C.tells C.state O.offers s t e bytes p q fault → GrowsTo (view p) (view q) }
    ensures finished { (s : Store C O) (t : ℕ) (e : Entry) (ended : Ended) (p q : Pass C)
        → Finished C.tells C.state O.offers s t e p q ended → GrowsTo (view p) (view q) }
    ensures not_finished { (s : Store C O) (t : ℕ) (e : Entry) (fault : WriteFault) (p q : Pass C)
        → NotFinished C.tells C.state O.offers s t e p q fault → GrowsTo (view p) (view q) }
    ensures halts { (g : Ground (List ℕ)) (t : ℕ) (v w : View (List ℕ)) → Halts g t v w → GrowsTo v w }
{}

/// At each answer of a call of the reader: where an entry was opened or not, a tab read on, and it left.
pub fn reading_grows<C: Cell, O: Origin>()
    ensures opened { (g : Ground (List ℕ)) (t version : ℕ) (url : List ℕ) (v w : View (List ℕ)) → OpenedEntry g t url v version w → GrowsTo v w }
    ensures refused { (g : Ground (List ℕ)) (t : ℕ) (url : List ℕ) (cause : Cause) (v w : View (List ℕ)) → Refused g t url v cause w → GrowsTo v w }
    ensures gave { (s : Store C O) (t : ℕ) (e : Standing) (before after : List ℕ) (answer : More) (p q : Pass C)
        → Gave C.tells C.state O.offers s t p e before after q answer → GrowsTo (view p) (view q) }
    ensures parted { (g : Ground (List ℕ)) (t : ℕ) (v w : View (List ℕ)) → Parted g t v w → GrowsTo v w }
{}

/// At each answer of a purge: where an entry was doomed, and where there was none.
pub fn purging_grows<X>()
    ensures purged { (g : Ground X) (t : ℕ) (url : List ℕ) (left : Epoch) (v w : View X) → Purged g t url v left w → GrowsTo v w }
    ensures refused { (g : Ground X) (t : ℕ) (url : List ℕ) (cause : Cause) (v w : View X) → Refused g t url v cause w → GrowsTo v w }
{}

/// At each answer of a purge on the disk: where it was the last user of the entry, and wiped its first slot or failed at
/// that, and where it left the entry to others. Of a refusal `purging_grows` says it.
pub fn wiping_grows<X>()
    ensures last { (g : Ground X) (t : ℕ) (url : List ℕ) (done : Bool) (left : Epoch) (v w : View X) → WipedAsLast g t url done v left w → GrowsTo v w }
    ensures later { (g : Ground X) (t : ℕ) (url : List ℕ) (left : Epoch) (v w : View X) → LeftToOthers g t url v left w → GrowsTo v w }
{}

/// At each answer of a call of which requests are made: where bytes were added or not, an entry was ended or not, a
/// response was stored or not, a tab read on as far as it could, and the entry of a URL was got or not; and where
/// reading on, or getting, stopped for want of memory.
pub fn serving_grows<C: Cell, O: Origin>()
    ensures added { (s : Store C O) (t total : ℕ) (e : Entry) (p q : Pass C) → BytesAdded C.tells C.state O.offers s t e p q total → GrowsTo (view p) (view q) }
    ensures not_added { (s : Store C O) (t : ℕ) (e : Entry) (fault : WriteFault) (p q : Pass C)
        → NotAdded C.tells C.state O.offers s t e p q fault → GrowsTo (view p) (view q) }
    ensures ended { (s : Store C O) (t : ℕ) (e : Entry) (ended : Ended) (p q : Pass C)
        → EndedWhole C.tells C.state O.offers s t e p q ended → GrowsTo (view p) (view q) }
    ensures not_ended { (s : Store C O) (t : ℕ) (e : Entry) (fault : WriteFault) (p q : Pass C)
        → NotEnded C.tells C.state O.offers s t e p q fault → GrowsTo (view p) (view q) }
    ensures put { (s : Store C O) (t offer : ℕ) (url : List ℕ) (durable : Bool) (ended : Ended) (p q : Pass C)
        → PutWhole C.tells C.state O.offers s t offer url durable p q ended → GrowsTo (view p) (view q) }
    ensures not_put { (s : Store C O) (t offer : ℕ) (url : List ℕ) (durable : Bool) (fault : PutFault) (p q : Pass C)
        → NotPut C.tells C.state O.offers s t offer url durable p q fault → GrowsTo (view p) (view q) }
    ensures went { (s : Store C O) (t : ℕ) (e : Standing) (bytes : List ℕ) (answer : More) (p q : Pass C)
        → WentOn C.tells C.state O.offers s t e p q bytes answer → GrowsTo (view p) (view q) }
    ensures gave_some { (s : Store C O) (t : ℕ) (e : Standing) (bytes : List ℕ) (p q : Pass C)
        → GaveSome C.tells C.state O.offers s t e p q bytes → GrowsTo (view p) (view q) }
    ensures got { (s : Store C O) (t : ℕ) (url bytes : List ℕ) (got : Got) (p q : Pass C)
        → GotAs C.tells C.state O.offers s t url p q bytes got → GrowsTo (view p) (view q) }
    ensures stopped { (s : Store C O) (t : ℕ) (url bytes : List ℕ) (p q : Pass C)
        → StoppedGetting C.tells C.state O.offers s t url p q bytes → GrowsTo (view p) (view q) }
{}

/// A tab reads so still in a later pass of the store that knows what this one knew, where the tab, its buffer and its
/// draft are as they were.
pub fn readers_stay<C: Cell, O: Origin>()
    ensures { (s : Store C O) (p q : Pass C) (t : ℕ) (e : Standing) → ReadsAs C.tells C.state O.offers s p t e
        → IsOf C.tells C.state O.offers s q → tab_at (view q) t ≡ tab_at (view p) t → SameDesk p.desks q.desks t
        → GrowsTo (view p) (view q) → ReadsAs C.tells C.state O.offers s q t e }
{}
