//! The first fault of the attachments of a network, and how many prefixes they are of.

ghost use Rattle.std.specs.Prelude.{◌≡◌, ◌≤◌, ◌∷◌, ◌++◌, [], ◌&&◌, ◌==◌, if◌then◌else◌, length, IfOk, IsOk, OnOk, MatchOption, Err};
ghost use Rattle.std.specs.List.{list_any};
ghost use Rattle.network_model.specs.World.{prefixes_of};
ghost use Rattle.network_model.specs.Network as valid;
ghost use Rattle.world.specs.Given.{IsGiven};

use network_model::{Cost, Limits, NetworkFault, NoMemory, Prefix};
use std::alloc::Global;
use std::collections::BTreeSet;

/// How many prefixes the attachments in a network of so many routers are of, or the first fault of
/// theirs. It takes time by n log n of the attachments, and where there is no memory for sets of what
/// was given, by their square.
pub fn prefix_count(
    alloc: Global,
    limits: &Limits,
    routers: usize,
    attachments: &[(Prefix, u16, Cost)],
) -> Result<usize, NetworkFault>
    ensures count { IfOk result (λ n. n ≡ length (prefixes_of attachments.now)) }
    ensures cause { MatchOption (valid.first_cause
        (valid.attachment_causes limits.now routers [] attachments.now)) (IsOk result)
        (λ fault. result ≡ Err fault) }
{
    match count_by_sets(alloc, limits, routers, attachments) {
        Ok(counted) => counted,
        Err(_) => count_by_comparison(limits, routers, attachments),
    }
}

// ---- by comparison with each attachment before

// Whether the prefix of an attachment is given by one of these.
fn is_given(before: &[(Prefix, u16, Cost)], attachment: &(Prefix, u16, Cost)) -> bool
    ensures { result ≡ list_any (valid.has_same_prefix attachment.now) before.now }
{
    before.iter().any(|other| other.0 == attachment.0)
}

// How many prefixes more there are by an attachment after others.
fn prefixes_more(before: &[(Prefix, u16, Cost)], attachment: &(Prefix, u16, Cost)) -> usize
    ensures more { result ≡ (if list_any
        (valid.has_same_prefix attachment.now) before.now then 0 else 1) }
    ensures one { result ≤ 1 }
{
    usize::from(!is_given(before, attachment))
}

// Whether the prefix was given before at the same router.
fn is_given_there(before: &[(Prefix, u16, Cost)], attachment: &(Prefix, u16, Cost)) -> bool
    ensures { result ≡ list_any (λ b. valid.has_same_prefix attachment.now b &&
        (b.1 == attachment.now.1)) before.now }
{
    before
        .iter()
        .any(|other| other.0 == attachment.0 && other.1 == attachment.1)
}

// Whether an attachment cannot be, after others of so many prefixes.
fn is_bad_attachment(
    limits: &Limits,
    routers: usize,
    before: &[(Prefix, u16, Cost)],
    prefixes: usize,
    attachment: &(Prefix, u16, Cost),
) -> bool
    requires { prefixes ≡ length (prefixes_of before.now) }
    ensures { result ≡ valid.is_bad_attachment limits.now routers before.now attachment.now }
{
    !(usize::from(attachment.1) < routers && before.len() < limits.attachments)
        || is_given_there(before, attachment)
        || !(is_given(before, attachment) || prefixes < limits.prefixes)
}

fn count_by_comparison(
    limits: &Limits,
    routers: usize,
    attachments: &[(Prefix, u16, Cost)],
) -> Result<usize, NetworkFault>
    ensures count { IfOk result (λ n. n ≡ length (prefixes_of attachments.now)) }
    ensures cause { MatchOption (valid.first_cause
        (valid.attachment_causes limits.now routers [] attachments.now)) (IsOk result)
        (λ fault. result ≡ Err fault) }
{
    let mut prefixes = 0;
    for (i, attachment) in attachments.iter().enumerate() {
        let before = &attachments[..i];
        if is_bad_attachment(limits, routers, before, prefixes, attachment) {
            return Err(NetworkFault::BadOwner { prefix: i });
        }
        prefixes += prefixes_more(before, attachment);
    }
    Ok(prefixes)
}

// ---- by sets of what was given before

// The prefixes that were given, and at which routers.
#[derive(Drop)]
struct Given {
    prefixes: BTreeSet<Prefix>,
    pairs: BTreeSet<(Prefix, u16)>,
}

impl Given {
    fn new(alloc: Global) -> Given
        ensures { IsGiven [] result }
    {
        Given {
            prefixes: BTreeSet::new(alloc),
            pairs: BTreeSet::new(alloc),
        }
    }

    // Whether the prefix of an attachment is given by one of these.
    fn is_given(&self, before: &[(Prefix, u16, Cost)], attachment: &(Prefix, u16, Cost)) -> bool
        requires { IsGiven before.now self.now }
        ensures { result ≡ list_any (valid.has_same_prefix attachment.now) before.now }
    {
        self.prefixes.contains(&attachment.0)
    }

    // Whether the prefix is given by one of these at the same router.
    fn is_given_there(
        &self,
        before: &[(Prefix, u16, Cost)],
        attachment: &(Prefix, u16, Cost),
    ) -> bool
        requires { IsGiven before.now self.now }
        ensures { result ≡ list_any (λ b. valid.has_same_prefix attachment.now b &&
            (b.1 == attachment.now.1)) before.now }
    {
        self.pairs.contains(&(attachment.0, attachment.1))
    }

    // Whether an attachment cannot be after these.
    fn refuses(
        &self,
        limits: &Limits,
        routers: usize,
        before: &[(Prefix, u16, Cost)],
        attachment: &(Prefix, u16, Cost),
    ) -> bool
        requires { IsGiven before.now self.now }
        ensures { result ≡ valid.is_bad_attachment limits.now routers before.now attachment.now }
    {
        !(usize::from(attachment.1) < routers && before.len() < limits.attachments)
            || self.is_given_there(before, attachment)
            || !(self.is_given(before, attachment) || self.prefixes.len() < limits.prefixes)
    }

    // An attachment is given after these.
    fn add(&mut self, attachment: &(Prefix, u16, Cost)) -> Result<(), NoMemory>
        ensures { OnOk result ((before : _) → IsGiven before self.old
            → IsGiven (before ++ attachment.now ∷ []) self.new) }
    {
        self.prefixes.insert(attachment.0)?;
        self.pairs.insert((attachment.0, attachment.1))?;
        Ok(())
    }
}

fn count_by_sets(
    alloc: Global,
    limits: &Limits,
    routers: usize,
    attachments: &[(Prefix, u16, Cost)],
) -> Result<Result<usize, NetworkFault>, NoMemory>
    ensures count { IfOk result (λ r. IfOk r (λ n. n ≡ length (prefixes_of attachments.now))) }
    ensures cause { IfOk result (λ r. MatchOption (valid.first_cause
        (valid.attachment_causes limits.now routers [] attachments.now)) (IsOk r)
        (λ fault. r ≡ Err fault)) }
{
    let mut given = Given::new(alloc);
    for (i, attachment) in attachments.iter().enumerate() {
        if given.refuses(limits, routers, &attachments[..i], attachment) {
            return Ok(Err(NetworkFault::BadOwner { prefix: i }));
        }
        given.add(attachment)?;
    }
    Ok(Ok(given.prefixes.len()))
}
