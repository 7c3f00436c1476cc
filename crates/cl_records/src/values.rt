ghost use Rattle.std.specs.Prelude.{◌≡◌, ◌<◌, ◌≤◌, ◌++◌, ◌∷◌, [], Ok, Err, true, false, length, IfOk, MatchResult};
ghost use Rattle.cl_records.specs.Kinds.{most_sizes};
ghost use Rattle.cl_records.specs.Ranges.{IsKind, AreKinds};
ghost use Rattle.cl_records.specs.Values.{values_of, reads_of, read_as_kind};

use crate::kind::Kind;
use crate::parameters::Parameters;
use cl_lines::{ClWhy, NumberFault, Unit, read_length, read_scaled};
use std::marker::Model;

/// The most numbers of a record.
const MAX_VALUES: usize = 7;

/// The numbers of a record, at most seven. Their value is a list.
#[derive(Drop)]
pub(crate) struct Values {
    items: [i32; MAX_VALUES],
    count: usize,
}

impl Model for Values {
    ghost use Rattle.std.specs.Prelude.{ℤ, ◌≤◌, List, take};
    ghost use Rattle.cl_records.specs.Kinds.{most_sizes};

    ghost Value = { List ℤ };

    ghost view = { λ v. take v.count v.items };

    ghost invariant = { λ v. v.count ≤ most_sizes };
}

impl Values {
    /// No numbers.
    fn new() -> Values
        ensures { result ≡ [] }
    {
        Values {
            items: [0; MAX_VALUES],
            count: 0,
        }
    }

    /// Adds a number after fewer than seven.
    fn push(&mut self, value: i32)
        requires { length self.old < most_sizes }
        ensures { self.new ≡ self.old ++ value ∷ [] }
    {
        self.items[self.count] = value;
        self.count += 1;
    }

    /// The numbers as they lie in memory.
    pub(crate) fn as_slice(&self) -> &[i32]
        ensures { result.now ≡ self.now }
    {
        &self.items[..self.count]
    }
}

/// Reads the parameters in order, each as the kind in its place. A text that is no number is reported before a number out of range.
pub(crate) fn read_values(
    unit: Unit,
    kinds: &[Kind],
    parameters: Parameters<'_>,
) -> Result<Values, ClWhy>
    requires { length kinds.now ≤ most_sizes }
    ensures values { MatchResult result
        (λ v. values_of (reads_of unit kinds.now parameters.entry) ≡ Ok v)
        (λ why. values_of (reads_of unit kinds.now parameters.entry) ≡ Err why) }
    ensures kinds { IfOk result (AreKinds kinds.now) }
{
    let mut values = Values::new();
    let mut in_range = true;
    let mut left = parameters;
    for kind in kinds {
        let Some(text) = left.next() else {
            return in_range_or_refused(values, in_range);
        };
        match read_value(unit, *kind, text) {
            Ok(value) => values.push(value),
            Err(NumberFault::Syntax) => return Err(ClWhy::NumberSyntax),
            Err(NumberFault::Range) => {
                values.push(0);
                in_range = false;
            }
        }
    }
    in_range_or_refused(values, in_range)
}

/// The values, where each of them was in its range.
fn in_range_or_refused(values: Values, in_range: bool) -> Result<Values, ClWhy>
    ensures { MatchResult result (λ v. (in_range ≡ true) × (v ≡ values)) (λ why. (in_range ≡ false) × (why ≡ ClWhy.NumberRange)) }
{
    if in_range {
        Ok(values)
    } else {
        Err(ClWhy::NumberRange)
    }
}

/// One number, read as its kind says.
fn read_value(unit: Unit, kind: Kind, text: &[u8]) -> Result<i32, NumberFault>
    ensures value { result ≡ read_as_kind unit kind text.now }
    ensures kind { IfOk result (IsKind kind) }
{
    match kind {
        Kind::Length(least, most) => read_length(text, unit, least, most),
        Kind::Scaled(least, most) => read_scaled(text, least, most),
    }
}
