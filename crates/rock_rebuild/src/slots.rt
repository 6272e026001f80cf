// What is kept of the slots of a file.
ghost use Rattle.std.specs.Prelude.{◌≡◌, ◌+◌, ◌*◌, ◌≤◌, ℕ, List, [], ◌∷◌, ◌++◌, length, max, IfOk, OnOk, MatchOption};
ghost use Rattle.rock_rebuild.specs.Kept.{TellsHeader, TellsHead, SaysHead, HasNoHead};
ghost use Rattle.slot_cell.specs.Header.{header_of, IsSane};

use crate::entry_head::{Head, head_of};
use crate::table::Table;
use slot_cell::Header;
use std::alloc::{AllocError, Global};
use swap_meta::Meta;

/// What is kept of the slots that were read.
#[derive(Debug, Drop)]
pub struct Slots {
    pub table: Table,
    /// For each slot what it says of an entry that begins there.
    pub heads: Vec<Option<Head>>,
    /// The URLs that heads tell of, behind one another.
    pub urls: Vec<u8>,
    /// The greatest version of a sane slot, or 0 where none is.
    pub greatest: u32,
}

impl Slots {
    ghost use Rattle.rock_rebuild.specs.Read.{images_in};
    ghost use Rattle.rock_rebuild.specs.Slots.{AreRead};

    /// Room for so many slots, and none yet.
    pub fn with_capacity(alloc: Global, slots: usize) -> Result<Slots, AllocError>
        ensures none { IfOk result (λ s. (count slot : ℕ) → AreRead count slot [] s) }
        ensures count { IfOk result (λ s. (length s.table ≡ 0) × (length s.heads.items ≡ 0)) }
    {
        Ok(Slots {
            table: Table::with_capacity(alloc, slots)?,
            heads: Vec::with_capacity(alloc, slots)?,
            urls: Vec::new(alloc),
            greatest: 0,
        })
    }

    /// Takes the next slot, of this number, of a file of `slots` slots of `slot` bytes.
    pub fn add(
        &mut self,
        number: u32,
        slots: u32,
        slot: u32,
        image: &[u8],
    ) -> Result<(), AllocError>
        requires { length image.now ≡ slot }
        ensures read { OnOk result ((images : List (List ℕ)) → length images ≡ number
            → AreRead slots slot images self.old
            → AreRead slots slot (images ++ image.now ∷ []) self.new) }
        ensures count { OnOk result ((length self.new.table ≡ length self.old.table + 1)
            × (length self.new.heads.items ≡ length self.old.heads.items + 1)) }
    {
        let header = sane_header(slots, slot, image);
        let meta = meta_at(number, slots, slot, header, image);
        let head = keep_url(&mut self.urls, meta)?;
        self.greatest = greater_of(self.greatest, header);
        self.table.push(header)?;
        self.heads.push(head)?;
        Ok(())
    }

    /// Takes the next `many` slots, from this number on, of a file of `slots` slots of `slot` bytes. Their images
    /// stand one behind the other.
    pub fn add_all(
        &mut self,
        first: u32,
        many: u32,
        slots: u32,
        slot: u32,
        images: &[u8],
    ) -> Result<(), AllocError>
        requires room { many * slot ≤ length images.now }
        requires numbers { first + many ≤ slots }
        ensures read { OnOk result ((before : List (List ℕ)) → length before ≡ first
            → AreRead slots slot before self.old
            → AreRead slots slot (before ++ images_in many slot images.now) self.new) }
        ensures count { OnOk result ((length self.new.table ≡ length self.old.table + many)
            × (length self.new.heads.items ≡ length self.old.heads.items + many)) }
    {
        let mut rest = images;
        for place in 0..many {
            let (image, behind) = rest.split_at(slot as usize);
            self.add(first + place, slots, slot, image)?;
            rest = behind;
        }
        Ok(())
    }
}

/// The header of a slot, where it is sane.
fn sane_header(slots: u32, slot: u32, image: &[u8]) -> Option<Header>
    requires { length image.now ≡ slot }
    ensures { TellsHeader slots slot image.now result }
{
    let header = Header::decode(image)?;
    if !header.is_sane(slots, slot) {
        return None;
    }
    Some(header)
}

/// The metadata of an entry that begins at the slot, where the slot is sane.
fn meta_at<'a>(
    number: u32,
    slots: u32,
    slot: u32,
    header: Option<Header>,
    image: &'a [u8],
) -> Option<Meta<'a>>
    requires size { length image.now ≡ slot }
    requires header { TellsHeader slots slot image.now header }
    ensures { MatchOption result
        (IsSane (header_of image.now) slots slot → HasNoHead number image.now)
        (λ meta. SaysHead number image.now meta.url.now meta.length) }
{
    head_of(number, &header?, image)
}

/// Puts the URL of metadata behind the URLs that are kept, and tells where it lies.
fn keep_url(urls: &mut Vec<u8>, meta: Option<Meta<'_>>) -> Result<Option<Head>, AllocError>
    ensures tells { IfOk result (λ head. (slots slot number : ℕ) (image : List ℕ)
        → MatchOption meta.entry
        (IsSane (header_of image) slots slot → HasNoHead number image)
        (λ m. SaysHead number image m.url.now m.length)
        → TellsHead slots slot number image urls.new.items head) }
    ensures grows { IfOk result (λ _. (more : List ℕ) × (urls.new.items ≡ urls.old.items ++ more)) }
{
    let Some(meta) = meta else {
        return Ok(None);
    };
    let from = urls.len();
    urls.extend_from_slice(meta.url)?;
    Ok(Some(Head {
        from,
        size: meta.url.len(),
        length: meta.length,
    }))
}

/// The greater of a version and that of a header, if there is one.
fn greater_of(greatest: u32, header: Option<Header>) -> u32
    ensures { MatchOption header (result ≡ greatest) (λ h. result ≡ max greatest h.version) }
{
    match header {
        Some(header) => greatest.max(header.version),
        None => greatest,
    }
}
