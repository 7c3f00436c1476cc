ghost use Rattle.std.specs.Prelude.{◌≡◌, IfOk};
ghost use Rattle.std.specs.List.{list_all};
ghost use Rattle.space.specs.Ranges.{IsPoint, IsWithin, axis_unit};
ghost use Rattle.space.specs.Vectors.{is_zero};
ghost use Rattle.cl_records.specs.Kinds.{delta_kinds, position_kinds};
ghost use Rattle.cl_records.specs.Parameters.{only_of, parameters_of};
ghost use Rattle.cl_records.specs.Ranges.{AreKinds, IsPosition, IsRecord};
ghost use Rattle.cl_records.specs.Records.{cutter_in, delta_in, delta_of, is_cycle, is_fini, is_off, is_plain, judged_refused, known, multax_in, multax_of, position_in, position_of, read_as, record_of, unit_behind, units_in, units_of, with_axis, with_parameters};

use crate::cutter::{CutterText, cutter_of_sizes};
use crate::kind::{CUTTER_KINDS, DELTA_KINDS, POSITION_KINDS};
use crate::parameters::Parameters;
use crate::values::read_values;
use crate::word::{Keyword, Major, major_word, spells, split_word};
use cl_lines::{ClWhy, Unit, Word};

/// A record of a cutter location text. Tips and distances are in micrometres, axes in 1/100,000.
#[derive(Clone, Copy)]
pub enum Record {
    /// A move to a position.
    Goto {
        tip: [i32; 3],
        axis: Option<[i32; 3]>,
    },
    /// The position where the tool is.
    From {
        tip: [i32; 3],
        axis: Option<[i32; 3]>,
    },
    /// A move by a distance.
    Delta([i32; 3]),
    /// The cutter of the moves that follow.
    Cutter(CutterText),
    /// Whether the tool axis may turn.
    Multax(bool),
    /// The unit of the lengths that follow.
    Units(Unit),
    /// The next move is rapid.
    Rapid,
    /// The end of the text.
    Fini,
    /// A record that is passed over.
    Passed,
}

/// A tip and, where one is given, the tool axis.
#[derive(Clone, Copy)]
pub struct Position {
    pub tip: [i32; 3],
    pub axis: Option<[i32; 3]>,
}

impl Record {
    /// Whether it is the end of the text.
    pub(crate) fn is_fini(&self) -> bool
        ensures { result ≡ is_fini self.now }
    {
        matches!(self, Record::Fini)
    }

    /// The unit of the lengths that follow it.
    pub(crate) fn unit_behind(&self, unit: Unit) -> Unit
        ensures { result ≡ unit_behind unit self.now }
    {
        match self {
            Record::Units(next) => *next,
            _ => unit,
        }
    }
}

/// The record that a text stands for in this unit, or its first fault.
pub(crate) fn read_record(unit: Unit, text: &[u8]) -> Result<Record, ClWhy>
    ensures record { result ≡ record_of unit text.now }
    ensures ranges { IfOk result IsRecord }
{
    let (word, behind) = split_word(text);
    match major_word(word) {
        Major::Passed => Ok(Record::Passed),
        Major::Refused(word) => judge_refused(word, text, behind),
        Major::Read(keyword) => {
            if has_only_plain_bytes(text) {
                read_as(unit, keyword, behind)
            } else {
                Err(ClWhy::BadByte)
            }
        }
    }
}

/// Whether each byte is a tab, or one from the space to the tilde. It looks at all of them, many at a time, since most texts
/// are plain to their end.
fn has_only_plain_bytes(text: &[u8]) -> bool
    ensures { result ≡ list_all is_plain text.now }
{
    let mut plain = true;
    for b in text {
        if !is_plain_byte(*b) {
            plain = false;
        }
    }
    plain
}

fn is_plain_byte(b: u8) -> bool
    ensures { result ≡ is_plain b }
{
    b == b'\t' || (b' ' <= b && b <= b'~')
}

/// A record of a word that is refused: CYCLE/OFF ends a cycle and is passed over.
fn judge_refused(word: Word, text: &[u8], behind: &[u8]) -> Result<Record, ClWhy>
    ensures record { result ≡ judged_refused word text.now behind.now }
    ensures ranges { IfOk result IsRecord }
{
    if !has_only_plain_bytes(text) {
        Err(ClWhy::BadByte)
    } else if is_cycle(word) && is_off(behind) {
        Ok(Record::Passed)
    } else {
        Err(ClWhy::Unsupported(word))
    }
}

fn is_cycle(word: Word) -> bool
    ensures { result ≡ is_cycle word }
{
    matches!(word, Word::Cycle)
}

/// Whether the one parameter OFF comes after a word.
fn is_off(behind: &[u8]) -> bool
    ensures { result ≡ is_off (only_of (known (parameters_of behind.now))) }
{
    let Some(parameters) = Parameters::read(behind) else {
        return false;
    };
    match parameters.only() {
        Some(word) => spells(word, b"OFF"),
        None => false,
    }
}

/// The record of a word that is read, by what follows it. What follows RAPID and FINI is not read.
fn read_as(unit: Unit, keyword: Keyword, behind: &[u8]) -> Result<Record, ClWhy>
    ensures record { result ≡ read_as unit keyword behind.now }
    ensures ranges { IfOk result IsRecord }
{
    match keyword {
        Keyword::Rapid => return Ok(Record::Rapid),
        Keyword::Fini => return Ok(Record::Fini),
        _ => (),
    }
    match Parameters::read(behind) {
        Some(parameters) => with_parameters(unit, keyword, parameters),
        None => Err(ClWhy::ParamWord),
    }
}

/// The record of a word with its parameters.
fn with_parameters(
    unit: Unit,
    keyword: Keyword,
    parameters: Parameters<'_>,
) -> Result<Record, ClWhy>
    ensures record { result ≡ with_parameters unit keyword parameters.entry }
    ensures ranges { IfOk result IsRecord }
{
    match keyword {
        Keyword::Goto => match read_position(unit, parameters) {
            Ok(position) => {
                let tip = position.tip;
                let axis = position.axis;
                Ok(Record::Goto { tip, axis })
            }
            Err(why) => Err(why),
        },
        Keyword::From => match read_position(unit, parameters) {
            Ok(position) => {
                let tip = position.tip;
                let axis = position.axis;
                Ok(Record::From { tip, axis })
            }
            Err(why) => Err(why),
        },
        Keyword::Godlta => read_delta(unit, parameters),
        Keyword::Cutter => read_cutter(unit, parameters),
        Keyword::Multax => read_multax(parameters),
        Keyword::Units => read_units(parameters),
        Keyword::Rapid => Ok(Record::Rapid),
        Keyword::Fini => Ok(Record::Fini),
    }
}

/// A position of three or six numbers.
fn read_position(unit: Unit, parameters: Parameters<'_>) -> Result<Position, ClWhy>
    ensures position { result ≡ position_in unit parameters.entry }
    ensures ranges { IfOk result IsPosition }
{
    let count = parameters.count();
    if count != 3 && count != 6 {
        return Err(ClWhy::ParamCount);
    }
    match read_values(unit, &POSITION_KINDS, parameters) {
        Ok(values) => position_of(values.as_slice()),
        Err(why) => Err(why),
    }
}

/// The position of three numbers, or of six.
fn position_of(values: &[i32]) -> Result<Position, ClWhy>
    requires { AreKinds position_kinds values.now }
    ensures position { result ≡ position_of values.now }
    ensures ranges { IfOk result IsPosition }
{
    match values {
        [x, y, z] => Ok(Position {
            tip: [*x, *y, *z],
            axis: None,
        }),
        [x, y, z, i, j, k] => with_axis([*x, *y, *z], [*i, *j, *k]),
        _ => Err(ClWhy::ParamCount),
    }
}

/// A tip with an axis, unless all components of the axis are 0.
fn with_axis(tip: [i32; 3], axis: [i32; 3]) -> Result<Position, ClWhy>
    requires tip { IsPoint tip }
    requires axis { IsWithin axis_unit axis }
    ensures position { result ≡ with_axis tip axis }
    ensures ranges { IfOk result IsPosition }
{
    if is_zero(axis) {
        Err(ClWhy::AxisZero)
    } else {
        let axis = Some(axis);
        Ok(Position { tip, axis })
    }
}

/// Whether all three components of an axis are 0.
fn is_zero(axis: [i32; 3]) -> bool
    ensures { result ≡ is_zero axis }
{
    let [i, j, k] = axis;
    i == 0 && j == 0 && k == 0
}

/// A move by a distance of three numbers.
fn read_delta(unit: Unit, parameters: Parameters<'_>) -> Result<Record, ClWhy>
    ensures record { result ≡ delta_in unit parameters.entry }
    ensures ranges { IfOk result IsRecord }
{
    if parameters.count() != 3 {
        return Err(ClWhy::ParamCount);
    }
    match read_values(unit, &DELTA_KINDS, parameters) {
        Ok(values) => delta_of(values.as_slice()),
        Err(why) => Err(why),
    }
}

/// The distance of three numbers.
fn delta_of(values: &[i32]) -> Result<Record, ClWhy>
    requires { AreKinds delta_kinds values.now }
    ensures record { result ≡ delta_of values.now }
    ensures ranges { IfOk result IsRecord }
{
    match values {
        [x, y, z] => Ok(Record::Delta([*x, *y, *z])),
        _ => Err(ClWhy::ParamCount),
    }
}

/// A cutter of one to seven numbers.
fn read_cutter(unit: Unit, parameters: Parameters<'_>) -> Result<Record, ClWhy>
    ensures record { result ≡ cutter_in unit parameters.entry }
    ensures ranges { IfOk result IsRecord }
{
    let count = parameters.count();
    if count < 1 || count > 7 {
        return Err(ClWhy::ParamCount);
    }
    match read_values(unit, &CUTTER_KINDS, parameters) {
        Ok(sizes) => match cutter_of_sizes(sizes.as_slice()) {
            Ok(cutter) => Ok(Record::Cutter(cutter)),
            Err(why) => Err(why),
        },
        Err(why) => Err(why),
    }
}

/// MULTAX without a parameter is MULTAX/ON.
fn read_multax(parameters: Parameters<'_>) -> Result<Record, ClWhy>
    ensures record { result ≡ multax_in parameters.entry }
    ensures ranges { IfOk result IsRecord }
{
    let mut left = parameters;
    match left.next() {
        None => Ok(Record::Multax(true)),
        Some(word) => match left.next() {
            None => multax_of(word),
            Some(_) => Err(ClWhy::ParamCount),
        },
    }
}

/// What the word after MULTAX says, whatever its case.
fn multax_of(word: &[u8]) -> Result<Record, ClWhy>
    ensures record { result ≡ multax_of word.now }
    ensures ranges { IfOk result IsRecord }
{
    if spells(word, b"ON") {
        Ok(Record::Multax(true))
    } else if spells(word, b"OFF") {
        Ok(Record::Multax(false))
    } else {
        Err(ClWhy::ParamWord)
    }
}

/// UNITS with its one word.
fn read_units(parameters: Parameters<'_>) -> Result<Record, ClWhy>
    ensures record { result ≡ units_in (only_of parameters.entry) }
    ensures ranges { IfOk result IsRecord }
{
    match parameters.only() {
        Some(word) => units_of(word),
        None => Err(ClWhy::ParamCount),
    }
}

/// The unit that a word names, whatever its case.
fn units_of(word: &[u8]) -> Result<Record, ClWhy>
    ensures record { result ≡ units_of word.now }
    ensures ranges { IfOk result IsRecord }
{
    if spells(word, b"MM") {
        Ok(Record::Units(Unit::Mm))
    } else if spells(word, b"INCHES") || spells(word, b"INCH") || spells(word, b"IN") {
        Ok(Record::Units(Unit::Inch))
    } else {
        Err(ClWhy::ParamWord)
    }
}
