// The words behind a request's name, all of them: so many, of these kinds, in this order.
ghost use Rattle.std.specs.Prelude.{◌≡◌, [], ◌∷◌, map};
ghost use Rattle.script_text.specs.Causes.{HasFieldCause, IsFirst};
ghost use Rattle.script_text.specs.Fields.Kind.{TabWord, UrlWord, BodyWord, CountWord, MarkWord};
ghost use Rattle.script_text.specs.Refusals.{ReadOr};
ghost use Rattle.script_text.specs.Requests.{AreTab, AreUrl, AreTabAndUrl, AreTabAndCount, AreMark, AreUrlAndBody, AreTabUrlAndBody};

use crate::body::Body;
use crate::fields::{read_body, read_count, read_mark, read_tab, read_url};
use crate::refusal::{Refusal, WORDS};
use rock_io::Octets;
use std::alloc::Global;

pub fn tab_alone(fields: &[&[u8]]) -> Result<u8, Refusal>
    ensures { ReadOr result (λ tab. AreTab tab (map (λ w. w.now) fields.now))
        (IsFirst (HasFieldCause (TabWord ∷ []) (map (λ w. w.now) fields.now))) }
{
    let [tab] = fields else {
        return Err(Refusal::Bad { cause: WORDS });
    };
    Ok(read_tab(tab)?)
}

pub fn url_alone(alloc: Global, fields: &[&[u8]]) -> Result<Octets, Refusal>
    ensures { ReadOr result (λ url. AreUrl url (map (λ w. w.now) fields.now))
        (IsFirst (HasFieldCause (UrlWord ∷ []) (map (λ w. w.now) fields.now))) }
{
    let [url] = fields else {
        return Err(Refusal::Bad { cause: WORDS });
    };
    Ok(read_url(alloc, url)?)
}

pub fn mark_alone(fields: &[&[u8]]) -> Result<u8, Refusal>
    ensures { ReadOr result (λ mark. AreMark mark (map (λ w. w.now) fields.now))
        (IsFirst (HasFieldCause (MarkWord ∷ []) (map (λ w. w.now) fields.now))) }
{
    let [mark] = fields else {
        return Err(Refusal::Bad { cause: WORDS });
    };
    Ok(read_mark(mark)?)
}

pub fn tab_and_count(fields: &[&[u8]]) -> Result<(u8, u32), Refusal>
    ensures { ReadOr result (λ r. AreTabAndCount r.0 r.1 (map (λ w. w.now) fields.now))
        (IsFirst (HasFieldCause (TabWord ∷ CountWord ∷ []) (map (λ w. w.now) fields.now))) }
{
    let [tab, count] = fields else {
        return Err(Refusal::Bad { cause: WORDS });
    };
    let tab = read_tab(tab)?;
    let count = read_count(count)?;
    Ok((tab, count))
}

pub fn tab_and_url(alloc: Global, fields: &[&[u8]]) -> Result<(u8, Octets), Refusal>
    ensures { ReadOr result (λ r. AreTabAndUrl r.0 r.1 (map (λ w. w.now) fields.now))
        (IsFirst (HasFieldCause (TabWord ∷ UrlWord ∷ []) (map (λ w. w.now) fields.now))) }
{
    let [tab, url] = fields else {
        return Err(Refusal::Bad { cause: WORDS });
    };
    let tab = read_tab(tab)?;
    let url = read_url(alloc, url)?;
    Ok((tab, url))
}

pub fn url_and_body(alloc: Global, fields: &[&[u8]]) -> Result<(Octets, Body), Refusal>
    ensures { ReadOr result (λ r. AreUrlAndBody r.0 r.1 (map (λ w. w.now) fields.now))
        (IsFirst (HasFieldCause (UrlWord ∷ BodyWord ∷ []) (map (λ w. w.now) fields.now))) }
{
    let [url, body] = fields else {
        return Err(Refusal::Bad { cause: WORDS });
    };
    let url = read_url(alloc, url)?;
    let body = read_body(alloc, body)?;
    Ok((url, body))
}

pub fn tab_url_and_body(alloc: Global, fields: &[&[u8]]) -> Result<(u8, Octets, Body), Refusal>
    ensures { ReadOr result (λ r. AreTabUrlAndBody r.0 r.1 r.2 (map (λ w. w.now) fields.now))
        (IsFirst (HasFieldCause (TabWord ∷ UrlWord ∷ BodyWord ∷ []) (map (λ w. w.now) fields.now))) }
{
    let [tab, url, body] = fields else {
        return Err(Refusal::Bad { cause: WORDS });
    };
    let tab = read_tab(tab)?;
    let url = read_url(alloc, url)?;
    let body = read_body(alloc, body)?;
    Ok((tab, url, body))
}
