//! Made hands, one after another.

ghost use Rattle.std.specs.Prelude.{◌≡◌, IfOk};
ghost use Rattle.made_hands.specs.Made.{made_text};

use crate::deals::Deal;
use crate::generator::Generator;
use crate::lines::write_hand;
use card_sets::Memory;
use std::alloc::Global;

/// Returns the histories of `hands` made hands, numbered from 1, from a seed. `Memory` is the only
/// refusal.
pub fn made_input(alloc: Global, seed: u64, hands: u32) -> Result<Vec<u8>, Memory>
    ensures made { IfOk result (λ text. text.items ≡ made_text seed hands) }
{
    let mut text = Vec::new(alloc);
    let mut generator = Generator { state: seed };
    for index in 0..hands {
        let deal = Deal::draw(&mut generator);
        write_hand(&mut text, u64::from(index) + 1, &deal)?;
    }
    Ok(text)
}
