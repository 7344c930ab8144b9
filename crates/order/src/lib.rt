// The order of a run of bytes: read by index, so that nothing is copied, or turned in place in a cut-out.
#![tactic(auto)]

ghost use Rattle.std.specs.Prelude.{◌≡◌, ◌<◌, length, get_or};
ghost use Rattle.order.specs.Order.{ordered, swap_pairs};

use kinds::ByteOrder;

// The byte at j of the ordered form of the bytes.
#[tactic(auto, using(crate::proofs::Index::ordered_from), unfolding(crate::proofs::Index::turned))]
pub fn ordered_byte(data: &[u8], byte_order: ByteOrder, j: usize) -> u8
    requires { j < length «data».now }
    ensures { result ≡ get_or (ordered byte_order «data».now) j 0 }
{
    match byte_order {
        ByteOrder::Keep => data[j],
        ByteOrder::ReorderPairs => {
            let partner = j ^ 1;
            if partner < data.len() {
                data[partner]
            } else {
                data[j]
            }
        }
        ByteOrder::Reverse => data[data.len() - j - 1],
    }
}

// Turns the bytes to their ordered form. To turn them twice gives them back.
#[tactic(auto, unfolding(crate::specs::Order::ordered))]
pub fn normalize_byte_order(data: &mut [u8], byte_order: ByteOrder)
    ensures { «data».new ≡ ordered byte_order «data».old }
{
    match byte_order {
        ByteOrder::Keep => {}
        ByteOrder::ReorderPairs => reorder_pairs(data),
        ByteOrder::Reverse => data.reverse(),
    }
}

// Swaps the bytes in pairs. An odd last byte stays. A loop over an index: a proof loses what the chunks of `chunks_exact_mut` change.
#[tactic(auto, using(crate::proofs::Exchange::swapped_all, crate::proofs::Exchange::swapped_more, crate::proofs::Exchange::assigned_more))]
fn reorder_pairs(data: &mut [u8])
    ensures { «data».new ≡ swap_pairs «data».old }
{
    for i in 0..data.len() / 2 {
        data.swap(2 * i, 2 * i + 1);
    }
}
