ghost use Rattle.std.specs.Prelude.{◌≡◌, IfOk, IfErr, Ok, false, map, is_some};
ghost use Rattle.toml.specs.Data.{as_table};
ghost use Rattle.toml.specs.View.{table_view, view};
ghost use Rattle.setup_file.specs.Bodies.{bodies_at, bodies_of};
ghost use Rattle.setup_file.specs.Reads.{EndsSetup, all_of};
ghost use Rattle.setup_file.specs.Sound.{AreBodies};

use crate::body::{as_many, read_body};
use crate::body_list::BodyList;
use crate::read::entry_at;
use ray_shapes::Bodies;
use setup_keys::{SetupEnd, SetupFault};
use std::alloc::Global;
use toml::{Table, Value};

/// The bodies of a list of the setup; none where it isn't there and isn't required.
pub(crate) fn bodies_at(alloc: Global, setup: &Table, list: &BodyList) -> Result<Bodies, SetupEnd>
    requires { list.now.required ≡ false → list.now.least ≡ 0 }
    ensures ok { IfOk result (λ bodies. bodies_at list.now (table_view setup.now) ≡ Ok bodies) }
    ensures refused { IfErr result (EndsSetup (bodies_at list.now (table_view setup.now))) }
    ensures valid { IfOk result (AreBodies list.now.least list.now.most) }
{
    match entry_at(setup, list.key) {
        Some(value) => read_bodies(alloc, value, list),
        None if list.required => Err(SetupEnd::Refused(SetupFault::SetupKey(list.key))),
        None => Ok(Bodies::new(Vec::new(alloc))),
    }
}

/// The bodies of a list.
#[tactic(auto, unfolding(crate::specs::Bodies::bodies_of))]
fn read_bodies(alloc: Global, value: &Value, list: &BodyList) -> Result<Bodies, SetupEnd>
    ensures ok { IfOk result (λ bodies. bodies_of list.now (view value.now) ≡ Ok bodies) }
    ensures refused { IfErr result (EndsSetup (bodies_of list.now (view value.now))) }
    ensures valid { IfOk result (AreBodies list.now.least list.now.most) }
{
    let Some(values) = value.as_array() else {
        return Err(SetupEnd::Refused(SetupFault::SetupKey(list.key)));
    };
    if !are_tables(values) {
        return Err(SetupEnd::Refused(SetupFault::SetupKey(list.key)));
    }
    if let Err(fault) = as_many(values, list.key, list.least, list.most) {
        return Err(SetupEnd::Refused(fault));
    }
    let mut bodies = Vec::new(alloc);
    for item in values {
        let body = match read_body(alloc, item, list) {
            Ok(body) => body,
            Err(end) => return Err(end),
        };
        if bodies.push(body).is_err() {
            return Err(SetupEnd::NoMemory);
        }
    }
    Ok(Bodies::new(bodies))
}

/// Whether all items are tables.
fn are_tables(values: &[Value]) -> bool
    ensures { result ≡ is_some (all_of as_table (map view values.now)) }
{
    for value in values {
        if !value.is_table() {
            return false;
        }
    }
    true
}
