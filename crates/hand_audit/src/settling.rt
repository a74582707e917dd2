//! What became of the chips of a hand.

ghost use Rattle.std.specs.Prelude.{◌≡◌, ℕ, ◌+◌, ◌<◌, ◌≤◌, ◌^◌, ◌++◌, ◌∷◌, [], true, map, length, IfOk, OnOk};
ghost use Rattle.pot_layers.specs.Pots.{pots};
ghost use Rattle.hand_audit.specs.Collections.{taken_from};
ghost use Rattle.hand_audit.specs.PotNames.{counts_from, each_taken};
ghost use Rattle.hand_audit.specs.Settle.{Showing, unfit_line};
ghost use Rattle.hand_audit.specs.Winning.{Tells, IsReady, IsDecided, AreDecided};
ghost use Rattle.hand_audit.specs.SettlementAnswers.{IsOfPot, AreOfPots, IsOfHand};

use crate::collections::Collection;
use crate::dues::Dues;
use crate::payments::{first_beyond, payments};
use crate::pot_names::{Source, fits, taken_from};
use crate::standings::Standings;
use card_sets::{Memory, PlayerSet};
use hand_verdict::{PartShares, Payment, Payments, PotLine, PotLines};
use pot_layers::Pot;
use std::alloc::{AllocError, Global};

/// What became of the chips of a hand, and the first payment that is beyond its tolerance.
#[derive(Drop)]
pub(crate) struct HandSettled {
    /// Whether each collection names one of the pots, each pot has one or more of them, and none has more
    /// collected than it holds.
    pub(crate) fits: bool,
    /// The pots.
    pub(crate) pots: PotLines,
    /// The shares of the parts of each pot.
    pub(crate) parts: Vec<PartShares>,
    /// The payments of the hand where the names don't fit, and else none.
    pub(crate) paid: Payments,
    /// The first payment beyond its tolerance.
    pub(crate) beyond: Option<Payment>,
}

/// What became of the chips of a pot, and its first payment that is beyond its tolerance.
#[derive(Drop)]
struct PotSettled {
    /// The pot with its payments.
    line: PotLine,
    /// The shares of its parts.
    parts: PartShares,
    /// The first payment beyond its tolerance, if there is one.
    beyond: Option<Payment>,
}

/// Pots whose chips are settled.
#[derive(Drop)]
struct SettledPots {
    /// The pots with their payments.
    lines: Vec<PotLine>,
    /// The shares of the parts of each pot.
    parts: Vec<PartShares>,
}

/// No pots.
fn no_pots(alloc: Global) -> SettledPots
    ensures lines { result.lines.items ≡ [] }
    ensures parts { result.parts.items ≡ [] }
{
    SettledPots {
        lines: Vec::new(alloc),
        parts: Vec::new(alloc),
    }
}

/// A pot more.
fn add_pot(pots: &mut SettledPots, line: PotLine, parts: PartShares) -> Result<(), AllocError>
    ensures lines { OnOk result (pots.new.lines.items ≡ pots.old.lines.items ++ line ∷ []) }
    ensures parts { OnOk result (pots.new.parts.items ≡ pots.old.parts.items ++ parts ∷ []) }
{
    pots.lines.push(line)?;
    pots.parts.push(parts)?;
    Ok(())
}

/// One pot of those whose names fit.
fn settle_pot(
    alloc: Global,
    standings: &Standings,
    all: &[Collection],
    source: Source,
    pot: Pot,
) -> Result<PotSettled, Memory>
    requires ready { IsReady standings.now }
    requires taken { taken_from (counts_from source) all.now ≤ pot.units }
    ensures { IfOk result (λ one. (s : Showing) → Tells standings.now s → IsDecided s pot.eligible
        → s.collections ≡ all.now → IsOfPot s source pot one) }
{
    let net = taken_from(all, source) as u64;
    let dues = Dues::of_pot(alloc, standings, PlayerSet::of(pot.eligible), net)?;
    let paid = payments(alloc, &dues, all, source)?;
    let beyond = first_beyond(&paid, &dues);
    Ok(PotSettled {
        line: PotLine {
            gross: pot.units,
            rake: pot.units - net,
            eligible: pot.eligible,
            checked: dues.checked,
            paid: Payments::of(paid),
        },
        parts: dues.parts,
        beyond,
    })
}

/// Settles the pots from a number on, of the count of a hand whose names fit. Appends each pot, and returns the first payment that is
/// beyond its tolerance.
fn settle_pots(
    standings: &Standings,
    all: &[Collection],
    count: usize,
    number: usize,
    layers: &[Pot],
    pots: &mut SettledPots,
) -> Result<Option<Payment>, Memory>
    requires ready { IsReady standings.now }
    requires each { each_taken count number layers.now all.now ≡ true }
    requires numbers { number + length layers.now < 2 ^ 64 }
    ensures count { IfOk result (λ _. length pots.new.lines.items
        ≡ length pots.old.lines.items + length layers.now) }
    ensures settled { IfOk result (λ first. (s : Showing) → Tells standings.now s → AreDecided s layers.now
        → s.collections ≡ all.now
        → AreOfPots s count number layers.now pots.old pots.new first) }
{
    match layers {
        [] => Ok(None),
        [pot, others @ ..] => {
            let alloc = *pots.lines.allocator();
            let source = Source::Numbered { count, number };
            let one = settle_pot(alloc, standings, all, source, *pot)?;
            let PotSettled {
                line,
                parts,
                beyond,
            } = one;
            add_pot(pots, line, parts)?;
            let later = settle_pots(standings, all, count, number + 1, others, pots)?;
            Ok(beyond.or(later))
        }
    }
}

/// The pots whose names don't fit. Nothing is known of their parts.
fn unfit_pots(alloc: Global, layers: &[Pot]) -> Result<SettledPots, AllocError>
    ensures lines { IfOk result (λ pots. pots.lines.items ≡ map unfit_line layers.now) }
    ensures parts { IfOk result (λ pots. pots.parts.items ≡ map (λ pot. []) layers.now) }
{
    let mut pots = no_pots(alloc);
    for pot in layers {
        let line = PotLine {
            gross: pot.units,
            rake: 0,
            eligible: pot.eligible,
            checked: false,
            paid: Payments::of(Vec::new(alloc)),
        };
        add_pot(&mut pots, line, PartShares::of(Vec::new(alloc)))?;
    }
    Ok(pots)
}

/// What became of the chips of a hand with these pots and collections.
pub(crate) fn settle(
    alloc: Global,
    standings: &Standings,
    layers: &[Pot],
    all: &[Collection],
) -> Result<HandSettled, Memory>
    requires ready { IsReady standings.now }
    requires taken { taken_from (counts_from Source.Any) all.now < 2 ^ 64 }
    requires few { length layers.now ≤ 10 }
    ensures { IfOk result (λ one. (s : Showing) → Tells standings.now s → AreDecided s layers.now
        → s.collections ≡ all.now → pots s.paid ≡ layers.now → IsOfHand s one) }
{
    if !fits(layers, all) {
        let pots = unfit_pots(alloc, layers)?;
        let paid = payments(alloc, &Dues::unknown(alloc), all, Source::Any)?;
        return Ok(HandSettled {
            fits: false,
            pots: PotLines::of(pots.lines),
            parts: pots.parts,
            paid: Payments::of(paid),
            beyond: None,
        });
    }
    let mut pots = no_pots(alloc);
    let beyond = settle_pots(standings, all, layers.len(), 0, layers, &mut pots)?;
    Ok(HandSettled {
        fits: true,
        pots: PotLines::of(pots.lines),
        parts: pots.parts,
        paid: Payments::of(Vec::new(alloc)),
        beyond,
    })
}
