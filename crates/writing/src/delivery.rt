// A text delivered at the start of an output.
ghost use Rattle.std.specs.Prelude.{◌≡◌};
ghost use Rattle.rules.specs.Promises.{leaves, delivered};
ghost use Rattle.writing.specs.Delivery.{delivery_answer};

// A text into the output: whether there is room for it. A bool: each caller has a refusal of its own for no room.
#[tactic(auto, unfolding(rules::specs::Promises::delivered))]
pub fn deliver(out: &mut [u8], text: &[u8]) -> bool
    ensures { leaves (delivery_answer result text.now) out.new ≡ delivered text.now
        out.old }
{
    if out.len() < text.len() {
        return false;
    }
    out[..text.len()].copy_from_slice(text);
    true
}
