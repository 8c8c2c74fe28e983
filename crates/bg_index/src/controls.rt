//! The nodes of each control.
ghost use Rattle.std.specs.Prelude.{◌≡◌, ◌++◌, [], ◌∷◌, List, IfOk, OnOk};
ghost use Rattle.std.specs.List.Sorted.{IsStrictlySortedBy};
ghost use Rattle.bg_lists.specs.Lists.{At};
ghost use Rattle.bg_base.specs.declared.big.NodeRow.{NodeRow as NodeRowValue};
ghost use Rattle.bg_index.specs.declared.entries.ControlEntry.{ControlEntry as ControlValue};
ghost use Rattle.bg_index.specs.Commits.{AreRoomier};
ghost use Rattle.bg_index.specs.Indexed.{AreSorted, control_cmp};

use crate::entries::ControlEntry;
use bg_base::NodeRow;
use bg_lists::Mem;
use std::alloc::Global;

/// The nodes of each control that a row has.
pub fn controls_of(alloc: Global, rows: &[NodeRow]) -> Mem<Vec<ControlEntry>>
    ensures { IfOk result (λ made. AreSorted rows.now made.items) }
{
    let mut made = Vec::new(alloc);
    for row in rows {
        add_node(alloc, &mut made, row.control, row.id)?;
    }
    Ok(made)
}

/// Puts the node behind the others of its control.
fn add_node(alloc: Global, controls: &mut Vec<ControlEntry>, control: u32, node: u32) -> Mem<()>
    requires ascending { IsStrictlySortedBy control_cmp controls.old.items }
    ensures ascending { OnOk result (IsStrictlySortedBy control_cmp controls.new.items) }
    ensures added { OnOk result ((rows : List NodeRowValue) → AreSorted rows controls.old.items
        → (row : NodeRowValue) → row.control ≡ control → row.id ≡ node → AreSorted (rows ++ row ∷ []) controls.new.items) }
{
    let at = control_at(alloc, controls, control)?;
    push_node(&mut controls[at], node)?;
    Ok(())
}

/// The position of the control, which is put among the others where it is not there. Costs a search, and moving the controls
/// behind it.
pub fn control_at(alloc: Global, controls: &mut Vec<ControlEntry>, control: u32) -> Mem<usize>
    requires ascending { IsStrictlySortedBy control_cmp controls.old.items }
    ensures there { IfOk result (λ at. (entry : ControlValue) × At entry at controls.new.items × (entry.control ≡ control)) }
    ensures ascending { IsStrictlySortedBy control_cmp controls.new.items }
    ensures roomier { AreRoomier controls.old.items controls.new.items }
    ensures sorted { (rows : List NodeRowValue) → AreSorted rows controls.old.items → AreSorted rows controls.new.items }
{
    match controls.binary_search_by_key(&control, |entry| entry.control) {
        Ok(at) => Ok(at),
        Err(at) => {
            let nodes = Vec::new(alloc);
            controls.insert(at, ControlEntry { control, nodes })?;
            Ok(at)
        }
    }
}

/// Puts the node behind the others.
fn push_node(entry: &mut ControlEntry, node: u32) -> Mem<()>
    ensures control { entry.new.control ≡ entry.old.control }
    ensures nodes { OnOk result (entry.new.nodes.items ≡ entry.old.nodes.items ++ node ∷ []) }
{
    entry.nodes.push(node)?;
    Ok(())
}
