// Which version a call draws, and which deeds it does. The functions here do nothing: the proof of a function that
// calls one may use what it ensures.
ghost use Rattle.std.specs.Prelude.{Bool, List, None, Some, ◌≡◌, ℕ};
ghost use Rattle.lock_word.specs.Words.{epoch_number};
ghost use Rattle.lock_word.specs.declared.cause.Cause.{Cause};
ghost use Rattle.lock_word.specs.declared.epoch.Epoch.{Epoch};
ghost use Rattle.core_model.specs.declared.view.View.{View};
ghost use Rattle.store_rule.specs.Ground.{Ground, anchor_for};
ghost use Rattle.store_rule.specs.Passes.{basis, view};
ghost use Rattle.store_rule.specs.declared.store.Pass.{Pass};
ghost use Rattle.store_rule.specs.declared.store.Store.{Store};
ghost use Rattle.rock_writer.specs.Appending.{Appended, NotAppended};
ghost use Rattle.rock_writer.specs.Beginning.{Began, NotTaken, begun};
ghost use Rattle.rock_writer.specs.Entries.{Entry, WritesAs};
ghost use Rattle.rock_writer.specs.Finishing.{Finished, NotFinished, version_of};
ghost use Rattle.rock_writer.specs.Halting.{Halts};
ghost use Rattle.rock_writer.specs.declared.fault.BeginFault.{BeginFault};
ghost use Rattle.rock_writer.specs.declared.fault.Ended.{Ended};
ghost use Rattle.rock_writer.specs.declared.fault.WriteFault.{WriteFault};
ghost use Rattle.rock_reader.specs.Closing.{Parted};
ghost use Rattle.rock_reader.specs.Opening.{OpenedEntry, Refused};
ghost use Rattle.rock_reader.specs.Reading.{Gave, Standing};
ghost use Rattle.rock_reader.specs.declared.answer.More.{More};
ghost use Rattle.purge_entry.specs.Purging.{Purged};
ghost use Rattle.purge_entry.specs.Wiping.{LeftToOthers, WipedAsLast};
ghost use Rattle.store_serve.specs.Adding.{Added, NotAdded};
ghost use Rattle.store_serve.specs.Following.{GaveSome, WentOn};
ghost use Rattle.store_serve.specs.Getting.{GotAs, StoppedGetting};
ghost use Rattle.store_serve.specs.Storing.{EndedWhole, NotEnded, NotPut, PutWhole};
ghost use Rattle.store_serve.specs.declared.getting.Got.{Got};
ghost use Rattle.store_serve.specs.declared.storing.PutFault.{PutFault};
ghost use Rattle.store_serve.specs.Acting.{Acted};
ghost use Rattle.store_serve.specs.Deeds.{Enters, NoDeed, OfBeginning, OfClosing, OfEnding, OfGivingUp, OfHalting, OfLeaving, OfPublishing, OfPurging, OfPutting, OfRefusing, OfVisiting, name_of};
ghost use Rattle.store_serve.specs.Refusing.{NotBegunBy, NotStoredBy};

use rock_disk::Cell;
use store_rule::Origin;

/// An entry that is begun is of the one version that its call drew. No other call of the writer draws, but one by
/// which no entry is begun may. What each of them does to anchors is done to the entry that its tab writes, or
/// comes of reserving a slot or of leaving.
pub fn writing_acts<C: Cell, O: Origin>()
    ensures began { (s : Store C O) (t offer version : ℕ) (url : List ℕ) (durable : Bool) (p q : Pass C)
        → Began C.tells C.state O.offers s t offer url durable p q version
        → Acted (Some version) (OfBeginning (anchor_for (basis C.tells C.state O.offers s) url) version) (view p) (view q) }
    ensures not_taken { (g : Ground (List ℕ)) (t a : ℕ) (v w : View (List ℕ)) (fault : BeginFault) → NotTaken g t a v fault w → NotBegunBy v w fault }
    ensures appended { (s : Store C O) (t count : ℕ) (e : Entry) (bytes : List ℕ) (p q : Pass C) → WritesAs C.tells C.state O.offers s p t e
        → Appended C.tells C.state O.offers s t e bytes p q count → Acted None (OfPublishing (basis C.tells C.state O.offers s) (name_of (basis C.tells C.state O.offers s) e) (view q).seen) (view p) (view q) }
    ensures not_appended { (s : Store C O) (t : ℕ) (e : Entry) (bytes : List ℕ) (fault : WriteFault) (p q : Pass C) → WritesAs C.tells C.state O.offers s p t e
        → NotAppended C.tells C.state O.offers s t e bytes p q fault → Acted None (OfRefusing (basis C.tells C.state O.offers s) e.anchor e.version) (view p) (view q) }
    ensures finished { (s : Store C O) (t : ℕ) (e : Entry) (ended : Ended) (p q : Pass C) → WritesAs C.tells C.state O.offers s p t e
        → Finished C.tells C.state O.offers s t e p q ended → Acted None (OfClosing (basis C.tells C.state O.offers s) (name_of (basis C.tells C.state O.offers s) e) (view q).seen ended) (view p) (view q) }
    ensures not_finished { (s : Store C O) (t : ℕ) (e : Entry) (fault : WriteFault) (p q : Pass C) → WritesAs C.tells C.state O.offers s p t e
        → NotFinished C.tells C.state O.offers s t e p q fault → Acted None (OfRefusing (basis C.tells C.state O.offers s) e.anchor e.version) (view p) (view q) }
    ensures halts { (s : Store C O) (t : ℕ) (e : Entry) (p q : Pass C) → WritesAs C.tells C.state O.offers s p t e
        → Halts (basis C.tells C.state O.offers s) t (view p) (view q) → Acted None (OfHalting e.anchor e.version) (view p) (view q) }
{}

/// No call of the reader draws. It enters the anchor of the URL, and may free an entry that is left over.
pub fn reading_acts<C: Cell, O: Origin>()
    ensures opened { (g : Ground (List ℕ)) (t version : ℕ) (url : List ℕ) (v w : View (List ℕ)) → OpenedEntry g t url v version w
        → Acted None (Enters (anchor_for g url)) v w }
    ensures refused { (g : Ground (List ℕ)) (t : ℕ) (url : List ℕ) (cause : Cause) (v w : View (List ℕ)) → Refused g t url v cause w
        → Acted None (OfVisiting (anchor_for g url)) v w }
    ensures gave { (s : Store C O) (t : ℕ) (e : Standing) (before after : List ℕ) (answer : More) (p q : Pass C)
        → Gave C.tells C.state O.offers s t p e before after q answer → Acted None NoDeed (view p) (view q) }
    ensures parted { (g : Ground (List ℕ)) (t : ℕ) (v w : View (List ℕ)) → Parted g t v w → Acted None OfLeaving v w }
{}

/// A purge draws nothing. It enters the anchor of the URL, dooms the entry there, which leaves the epoch that it
/// answers, and may free it.
pub fn purging_acts<X>()
    ensures purged { (g : Ground X) (t : ℕ) (url : List ℕ) (left : Epoch) (v w : View X) → Purged g t url v left w
        → Acted None (OfPurging (anchor_for g url) (epoch_number left)) v w }
    ensures refused { (g : Ground X) (t : ℕ) (url : List ℕ) (cause : Cause) (v w : View X) → Refused g t url v cause w
        → Acted None (OfVisiting (anchor_for g url)) v w }
{}

/// Nor does one on the disk draw. It does what a purge does, and nothing else to an anchor.
pub fn wiping_acts<X>()
    ensures last { (g : Ground X) (t : ℕ) (url : List ℕ) (done : Bool) (left : Epoch) (v w : View X) → WipedAsLast g t url done v left w
        → Acted None (OfPurging (anchor_for g url) (epoch_number left)) v w }
    ensures later { (g : Ground X) (t : ℕ) (url : List ℕ) (left : Epoch) (v w : View X) → LeftToOthers g t url v left w
        → Acted None (OfPurging (anchor_for g url) (epoch_number left)) v w }
{}

/// What the calls of which requests are made draw and do is what those of the writer and the reader do, one behind
/// the other.
pub fn serving_acts<C: Cell, O: Origin>()
    ensures added { (s : Store C O) (t total : ℕ) (e : Entry) (p q : Pass C) → WritesAs C.tells C.state O.offers s p t e
        → Added C.tells C.state O.offers s t e p q total → Acted None (OfPublishing (basis C.tells C.state O.offers s) (name_of (basis C.tells C.state O.offers s) e) (view q).seen) (view p) (view q) }
    ensures not_added { (s : Store C O) (t : ℕ) (e : Entry) (fault : WriteFault) (p q : Pass C) → WritesAs C.tells C.state O.offers s p t e
        → NotAdded C.tells C.state O.offers s t e p q fault → Acted None (OfGivingUp (basis C.tells C.state O.offers s) (name_of (basis C.tells C.state O.offers s) e) (view q).seen) (view p) (view q) }
    ensures ended { (s : Store C O) (t : ℕ) (e : Entry) (ended : Ended) (p q : Pass C) → WritesAs C.tells C.state O.offers s p t e
        → EndedWhole C.tells C.state O.offers s t e p q ended → Acted None (OfEnding (basis C.tells C.state O.offers s) (name_of (basis C.tells C.state O.offers s) e) (view q).seen ended) (view p) (view q) }
    ensures not_ended { (s : Store C O) (t : ℕ) (e : Entry) (fault : WriteFault) (p q : Pass C) → WritesAs C.tells C.state O.offers s p t e
        → NotEnded C.tells C.state O.offers s t e p q fault → Acted None (OfGivingUp (basis C.tells C.state O.offers s) (name_of (basis C.tells C.state O.offers s) e) (view q).seen) (view p) (view q) }
    ensures put { (s : Store C O) (t offer : ℕ) (url : List ℕ) (durable : Bool) (ended : Ended) (p q : Pass C)
        → PutWhole C.tells C.state O.offers s t offer url durable p q ended
        → Acted (Some (version_of ended)) (OfPutting (basis C.tells C.state O.offers s) (name_of (basis C.tells C.state O.offers s) (begun C.tells C.state O.offers s t offer url durable p q (version_of ended))) (view q).seen ended) (view p) (view q) }
    ensures not_put { (s : Store C O) (t offer : ℕ) (url : List ℕ) (durable : Bool) (fault : PutFault) (p q : Pass C)
        → NotPut C.tells C.state O.offers s t offer url durable p q fault
        → NotStoredBy (view p) (view q) (basis C.tells C.state O.offers s) (λ version. name_of (basis C.tells C.state O.offers s) (begun C.tells C.state O.offers s t offer url durable p q version)) fault }
    ensures went { (s : Store C O) (t : ℕ) (e : Standing) (bytes : List ℕ) (answer : More) (p q : Pass C)
        → WentOn C.tells C.state O.offers s t e p q bytes answer → Acted None NoDeed (view p) (view q) }
    ensures gave_some { (s : Store C O) (t : ℕ) (e : Standing) (bytes : List ℕ) (p q : Pass C)
        → GaveSome C.tells C.state O.offers s t e p q bytes → Acted None NoDeed (view p) (view q) }
    ensures got { (s : Store C O) (t : ℕ) (url bytes : List ℕ) (got : Got) (p q : Pass C)
        → GotAs C.tells C.state O.offers s t url p q bytes got → Acted None (OfVisiting (anchor_for (basis C.tells C.state O.offers s) url)) (view p) (view q) }
    ensures stopped { (s : Store C O) (t : ℕ) (url bytes : List ℕ) (p q : Pass C)
        → StoppedGetting C.tells C.state O.offers s t url p q bytes → Acted None (OfVisiting (anchor_for (basis C.tells C.state O.offers s) url)) (view p) (view q) }
{}
