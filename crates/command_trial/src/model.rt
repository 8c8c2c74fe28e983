//! The model that is made.
ghost use Rattle.std.specs.Prelude.{◌≡◌, ◌≤◌, ◌++◌, IfOk, OnOk};
ghost use Rattle.command_trial.specs.Model as definition;

use bg_lists::Mem;
use std::alloc::Global;

/// What stands in front of the rooms.
const FRONT: &[u8] =
    b"ctrl Building = 0;\nctrl Closed = 0;\nctrl Room = 0;\natomic ctrl Agent = 1;\natomic ctrl Computer = 1;\natomic ctrl Seat = 2;\nbig room = Room.Computer{n};\nbig agent = /a Agent{a};\nbig s = /n Building.(";

/// What stands behind the agents.
const BACK: &[u8] =
    b");\nreact sit = Agent{x} | Room.Computer{n} --> Room.Seat{x,n};\nreact shut = Building.id --> Closed.id;\nbegin brs\n  init s;\n  rules = [ {sit}, {shut} ];\nend\n";

/// The model of that size: a building with so many rooms and so many agents. Costs time in proportion to the size.
pub(crate) fn model_of(alloc: Global, size: u32) -> Mem<Vec<u8>>
    requires { 1 ≤ size }
    ensures { IfOk result (λ model. model.items ≡ definition.trial_model size) }
{
    let mut model = Vec::new(alloc);
    put_model(size, &mut model)?;
    Ok(model)
}

/// The text of the model, behind what is there. After an error the bytes behind are of no use.
#[tactic(auto, unfolding(crate::specs::Model::front, crate::specs::Model::back))]
fn put_model(size: u32, out: &mut Vec<u8>) -> Mem<()>
    requires { 1 ≤ size }
    ensures { OnOk result (out.new.items ≡ out.old.items ++ definition.trial_model size) }
{
    out.extend_from_slice(FRONT)?;
    out.extend_from_slice(b"room")?;
    put_times(size - 1, b" | room", out)?;
    put_times(size, b" | agent", out)?;
    out.extend_from_slice(BACK)?;
    Ok(())
}

/// The text so many times.
fn put_times(count: u32, text: &[u8], out: &mut Vec<u8>) -> Mem<()>
    ensures { OnOk result (out.new.items ≡ out.old.items ++ definition.times count text.now) }
{
    for _ in 0..count {
        out.extend_from_slice(text)?;
    }
    Ok(())
}
