//! The bodies and constant expressions of a module, one after another.

ghost use Rattle.std.specs.Prelude.{◌≡◌, ◌≢◌, ◌≤◌, length};
ghost use Rattle.module_check.specs.Verdicts.{IsConsistent};
ghost use Rattle.c_api.specs.Items.{AreSafeFrom, IsReported, IsReportedAt, ItemAnswer};

use module_check::{BodyBuffers, LoadedModule, ModuleVerdict, VALID, check_item, item_count};

/// Checks what stands at this place, and notes what it comes to.
fn check_at(
    module: &LoadedModule<'_>,
    place: usize,
    buffers: &mut BodyBuffers,
    text: &mut [u8],
    out: &mut ModuleVerdict,
)
    requires consistent { IsConsistent (length text.old) out.old }
    requires first { out.old.status ≡ 0 }
    ensures consistent { IsConsistent (length text.new) out.new }
    ensures reported { out.new.status ≢ 0 → IsReportedAt module.now place out.new }
    ensures answer { ItemAnswer module.now place out.new.status }
    ensures known { out.new.status ≤ 4 }
{
    let checked = check_item(module, place, buffers);
    out.note(&checked.verdict, Some(checked.item), text);
}

/// Checks them one after another, from the place on, up to one that isn't accepted: behind that one the place is then.
pub(crate) fn check_from(
    module: &LoadedModule<'_>,
    position: &mut usize,
    buffers: &mut BodyBuffers,
    text: &mut [u8],
    out: &mut ModuleVerdict,
)
    requires consistent { IsConsistent (length text.old) out.old }
    requires first { out.old.status ≡ 0 }
    ensures consistent { IsConsistent (length text.new) out.new }
    ensures rest { out.new.status ≡ 0 → AreSafeFrom module.now position.old }
    ensures reported { out.new.status ≢ 0 → IsReported module.now position.old position.new out.new }
    ensures unmoved { out.new.status ≡ 0 → position.new ≡ position.old }
    ensures known { out.new.status ≤ 4 }
{
    for place in *position..item_count(module) {
        check_at(module, place, buffers, text, out);
        if out.status != VALID {
            *position = place + 1;
            return;
        }
    }
}
