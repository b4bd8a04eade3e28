//! What the records that were passed say to the next one.
ghost use Rattle.std.specs.Prelude.{◌≡◌, ◌↔◌, ◌==◌, ◌&&◌, ◌||◌, ◌+◌, ◌<◌, ◌^◌, ◌∷◌, [], ℕ, Bool, not, length, IsTrue, None, unwrap_or, OnOk};
ghost use Rattle.std.specs.List.{list_any};
ghost use Rattle.std.specs.BTreeMap.{get};
ghost use Rattle.std.specs.Ordering.{nat_cmp};
ghost use Rattle.persist_model.specs.Kinds.{COMPENSATION, UPDATE};
ghost use Rattle.persist_model.specs.Records.{Record, Log, Has, HasNo};
ghost use Rattle.persist_model.specs.Order.{last_new as last_new_of};
ghost use Rattle.persist_model.specs.Shape.{part_of as part_of_shape};
ghost use Rattle.bucket_log.specs.Scans.{record_of_placed};
ghost use Rattle.region_layout.specs.Layout.{layout_shape};
ghost use Rattle.log_tables.specs.Tables.{AreNumbers, AreNews, AreClaims, IsSummary, has_claim, holds_found};
ghost use Rattle.log_tables.specs.Passed.{IsPast};
ghost use Rattle.log_tables.specs.declared.seen.Seen.TheVariants.{Nothing};

use crate::seen::Seen;
use crate::summaries::{Summaries, Summary};
use bucket_log::Placed;
use persist_model::{NoMemory, RecordKind};
use region_layout::Layout;
use std::alloc::{AllocError, Global};
use std::collections::BTreeMap;

// The records by their numbers.
type Numbers = BTreeMap<u64, Placed>;
// The value after a transaction's last change of a word.
type News = BTreeMap<(u64, u64), u64>;
// The transactions whose records bar others from a word.
type Claims = BTreeMap<u64, Seen>;

// Takes a record whose number is new.
fn add_number(numbers: &mut Numbers, s: &Placed) -> Result<(), AllocError>
    requires { get nat_cmp numbers.old s.now.cell.lsn ≡ None }
    ensures { OnOk result ((log : Log) → AreNumbers numbers.old log → AreNumbers numbers.new (record_of_placed s.now ∷ log)) }
{
    numbers.insert(s.cell.lsn, *s)?;
    Ok(())
}

// Whether a record changes a word.
fn is_change(s: &Placed) -> bool
    ensures { result ≡ ((s.now.cell.kind == UPDATE) || (s.now.cell.kind == COMPENSATION)) }
{
    s.cell.is(RecordKind::Update) || s.cell.is(RecordKind::Compensation)
}

// Takes a record, which may be a change.
fn add_new(news: &mut News, s: &Placed) -> Result<(), AllocError>
    ensures { OnOk result ((log : Log) → AreNews news.old log → AreNews news.new (record_of_placed s.now ∷ log)) }
{
    if !is_change(s) {
        return Ok(());
    }
    news.insert((s.cell.transaction, s.cell.word), s.cell.after)?;
    Ok(())
}

// The transactions whose records bar others from this word.
fn claimers(claims: &Claims, word: u64) -> Seen
    ensures { result ≡ unwrap_or (get nat_cmp claims.now word) Nothing }
{
    claims.get(&word).copied().unwrap_or(Seen::Nothing)
}

// Takes a record, which may bar others from its word.
fn add_claim(claims: &mut Claims, s: &Placed, bars: bool) -> Result<(), AllocError>
    ensures { OnOk result ((marks : Record → Bool) (log : Log) → bars ≡ marks (record_of_placed s.now) → AreClaims marks claims.old log
        → AreClaims marks claims.new (record_of_placed s.now ∷ log)) }
{
    if !bars {
        return Ok(());
    }
    let seen = claimers(claims, s.cell.word).with(s.cell.transaction);
    claims.insert(s.cell.word, seen)?;
    Ok(())
}

/// The records that were passed, as the next one asks for them.
#[derive(Drop)]
pub struct Past {
    summaries: Summaries,
    numbers: Numbers,
    news: News,
    claims: Claims,
}

impl Past {
    /// Before the first record.
    pub fn new(alloc: Global) -> Past
        ensures { (part : ℕ → ℕ) (marks : Record → Bool) → IsPast part marks result [] }
    {
        Past {
            summaries: Summaries::new(alloc),
            numbers: BTreeMap::new(alloc),
            news: BTreeMap::new(alloc),
            claims: BTreeMap::new(alloc),
        }
    }

    /// What the records of a transaction come to.
    pub fn of(&self, transaction: u64) -> Summary
        ensures { (part : ℕ → ℕ) (marks : Record → Bool) (log : Log) → IsPast part marks self.now log → IsSummary part result transaction log }
    {
        self.summaries.of(transaction)
    }

    /// The record with this number.
    pub fn numbered(&self, number: u64) -> Option<Placed>
        ensures { (part : ℕ → ℕ) (marks : Record → Bool) (log : Log) → IsPast part marks self.now log
            → (f : Record → Bool) → list_any (λ s. (s.lsn == number) && f s) log ≡ holds_found f result }
    {
        self.numbers.get(&number).copied()
    }

    /// The value after a transaction's last change of a word, or else what is given.
    pub fn last_new(&self, transaction: u64, word: u64, other: u64) -> u64
        ensures { (part : ℕ → ℕ) (marks : Record → Bool) (log : Log) → IsPast part marks self.now log → result ≡ last_new_of transaction word other log }
    {
        self.news
            .get(&(transaction, word))
            .copied()
            .unwrap_or(other)
    }

    /// Whether a record of another transaction bars this one from the word.
    pub fn is_claimed(&self, word: u64, transaction: u64) -> bool
        ensures { (part : ℕ → ℕ) (marks : Record → Bool) (log : Log) → IsPast part marks self.now log → result ≡ has_claim marks word transaction log }
    {
        claimers(&self.claims, word).has_other(transaction)
    }

    /// Takes one record more, whose number is new, and of which bars says whether it bars others from its word. Where there is no
    /// memory it may be taken in part, and nothing more is to be asked.
    pub fn add(&mut self, layout: Layout, s: &Placed, bars: bool) -> Result<(), NoMemory>
        requires { (marks : Record → Bool) × (log : Log) × IsPast (part_of_shape (layout_shape layout)) marks self.old log
            × (length log + 1 < 2 ^ 64) × HasNo (λ r. r.lsn ≡ s.now.cell.lsn) log }
        ensures { OnOk result ((marks : Record → Bool) (log : Log) → bars ≡ marks (record_of_placed s.now)
            → IsPast (part_of_shape (layout_shape layout)) marks self.old log
            → IsPast (part_of_shape (layout_shape layout)) marks self.new (record_of_placed s.now ∷ log)) }
    {
        self.summaries.add(layout, s)?;
        add_number(&mut self.numbers, s)?;
        add_new(&mut self.news, s)?;
        add_claim(&mut self.claims, s, bars)?;
        Ok(())
    }
}
