//! The blocks of spot lines.

ghost use Rattle.std.specs.Prelude.{◌≡◌, [], ◌++◌, IfOk, OnOk};
ghost use Rattle.std.specs.Result.{is_err};
ghost use Rattle.card_sets.specs.State.{state_of};
ghost use Rattle.even_luck.specs.Equities.{IsEquityOf};
ghost use Rattle.hand_blocks.specs.Spots.{alone, spot_block};
ghost use Rattle.run_loop.specs.Report.{is_rejected_line, line_block};
ghost use Rattle.run_loop.specs.UnitBlocks.{MakesBlock};
ghost use Rattle.run_loop.specs.Units.{unit_lines};
ghost use Rattle.run_loop.specs.declared.block_kinds.BlockKind.TheVariants.{Spots};
ghost use Rattle.spot_text.specs.Spot.{spot_of};

use crate::block_kinds::SpotKind;
use crate::counter::{Counter, Equities};
use crate::run::BlockWriter;
use crate::units::ListedUnit;
use card_sets::{Known, Memory};
use line_text::next_line;
use report_table::{table_alone, write_spot};
use spot_text::{SpotFault, has_word, read_spot};

/// Asks for the equity of a spot, unless the spot is rejected.
fn ask_spot<C: Counter>(
    known: &Result<Known, SpotFault>,
    equities: &mut Equities<'_, C>,
) -> Result<(), Memory>
    ensures { OnOk result (IfOk known.now (λ k.
        IsEquityOf (alone (state_of k)) equities.new.counter.now.equity)) }
{
    let Ok(known) = known else {
        return Ok(());
    };
    equities.ask_table(&table_alone(*known))
}

impl<'a, C: Counter> BlockWriter<'a, C> {
    /// Appends the block of a line whose players have cards, and returns whether its spot is rejected.
    fn write_card_line(&mut self, unit: &ListedUnit<'_>, line: &[u8]) -> Result<bool, Memory>
        ensures block { OnOk result (self.new.block.items ≡ self.old.block.items
            ++ spot_block unit.now.form unit.now.place unit.now.text.first (spot_of line.now)) }
        ensures rejected { IfOk result (λ rejected. rejected ≡ is_err (spot_of line.now)) }
    {
        let known = read_spot(line);
        ask_spot(&known, &mut self.equities)?;
        write_spot(
            &mut self.block,
            unit.place,
            unit.text.first,
            &known,
            self.equities.last(),
            unit.form,
        )?;
        Ok(known.is_err())
    }

    /// Appends the block of a spot line, and returns whether its spot is rejected.
    fn write_line(
        &mut self,
        holding: SpotKind,
        unit: &ListedUnit<'_>,
        line: &[u8],
    ) -> Result<bool, Memory>
        ensures block { OnOk result (self.new.block.items ≡ self.old.block.items
            ++ line_block unit.now.form holding unit.now.place unit.now.text.first line.now) }
        ensures rejected { IfOk result (λ rejected. rejected ≡ is_rejected_line holding line.now) }
    {
        match holding {
            SpotKind::Cards => self.write_card_line(unit, line),
            SpotKind::Ranges => self.write_range_line(unit, line),
        }
    }

    /// Appends the block of a spot line, and returns whether its spot is rejected. Returns `None` if the line has no word. The
    /// bytes of the unit are the line, with or without its newline.
    pub(crate) fn write_spot_line(
        &mut self,
        holding: SpotKind,
        unit: &ListedUnit<'_>,
        _ready: &[u8],
    ) -> Result<Option<bool>, Memory>
        requires idle { _ready.now ≡ [] }
        requires empty { self.old.block.items ≡ [] }
        ensures { IfOk result (λ told. MakesBlock unit.now.form (Spots holding) unit.now.place
            (unit_lines unit.now.text) self.new.block.items told) }
    {
        let bytes = unit.text.bytes;
        let Some(line) = next_line(bytes, 0) else {
            return Ok(None);
        };
        let text = &bytes[line.first..line.end];
        if !has_word(text) {
            return Ok(None);
        }
        let rejected = self.write_line(holding, unit, text)?;
        Ok(Some(rejected))
    }
}
