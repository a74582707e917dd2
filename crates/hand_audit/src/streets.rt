//! The later streets of a hand that is played out.

ghost use Rattle.std.specs.Prelude.{◌≡◌, ℕ, ◌∷◌, ◌++◌, [], IfOk, OnOk, map};
ghost use Rattle.hand_audit.specs.Streets.{table_in, state_on, states_of};
ghost use Rattle.hand_audit.specs.Keeping.{Keeps};
ghost use Rattle.hand_audit.specs.Lines.{SoFar};
ghost use Rattle.hand_audit.specs.PotSeats.{eligible_of};
ghost use Rattle.hand_audit.specs.SettlementAnswers.{IsOfHand};
ghost use Rattle.hand_audit.specs.Showings.{showing_of};

use crate::all_in::all_in_on;
use crate::hand::AuditState;
use crate::settling::HandSettled;
use betting_replay::Replay;
use card_sets::Game;
use hand_verdict::{AllIn, PotLines, StreetState};
use history_text::{Header, Street};
use showdown_tally::Table;
use std::alloc::{AllocError, Global};

/// The table of an all-in.
fn table_in(all_in: AllIn) -> Option<Table>
    ensures { result ≡ table_in all_in }
{
    match all_in {
        AllIn::Known { table, .. } => Some(table),
        AllIn::None | AllIn::Unknown => None,
    }
}

/// What is known on a street.
fn state_on(game: Game, replay: &Replay, lines: &PotLines, street: Street) -> StreetState
    ensures { result ≡ state_on game replay.now (eligible_of lines.now) street }
{
    StreetState {
        street,
        table: table_in(all_in_on(game, replay, street, lines)),
    }
}

/// Appends an item, whatever its type. The prover refuses the push of some structs.
fn push_item<T: Copy>(items: &mut Vec<T>, item: T) -> Result<(), AllocError>
    ensures { OnOk result (items.new.items ≡ items.old.items ++ item ∷ []) }
{
    items.push(item)?;
    Ok(())
}

/// The states of some streets more.
fn add_states(
    states: &mut Vec<StreetState>,
    game: Game,
    replay: &Replay,
    lines: &PotLines,
    streets: &[Street],
) -> Result<(), AllocError>
    ensures { OnOk result (states.new.items
        ≡ states.old.items ++ map (state_on game replay.now (eligible_of lines.now)) streets.now) }
{
    match streets {
        [] => Ok(()),
        [street, others @ ..] => {
            push_item(states, state_on(game, replay, lines, *street))?;
            add_states(states, game, replay, lines, others)
        }
    }
}

/// What is known on each of some streets.
fn states_on(
    alloc: Global,
    game: Game,
    replay: &Replay,
    lines: &PotLines,
    streets: &[Street],
) -> Result<Vec<StreetState>, AllocError>
    ensures { IfOk result (λ states. states.items
        ≡ map (state_on game replay.now (eligible_of lines.now)) streets.now) }
{
    let mut states = Vec::new(alloc);
    add_states(&mut states, game, replay, lines, streets)?;
    Ok(states)
}

/// What is known on the later streets of a hand, of whose lines this is kept.
pub(crate) fn states_of(
    alloc: Global,
    header: &Header,
    state: &AuditState,
    settled: &HandSettled,
) -> Result<Vec<StreetState>, AllocError>
    ensures { IfOk result (λ states. (players : ℕ) (so_far : SoFar)
        → Keeps state.now header.now players so_far
        → IsOfHand (showing_of header.now players so_far.events) settled.now
        → states.items ≡ states_of header.now players so_far.events) }
{
    states_on(
        alloc,
        header.game,
        &state.replay,
        &settled.pots,
        &state.streets,
    )
}
