ghost use Rattle.std.specs.Prelude.{◌≡◌, option_map};
ghost use Rattle.vf_text.specs.Digits.{number_spelt};
ghost use Rattle.call_words.specs.Call.{named};
ghost use Rattle.clverify.specs.Asked.{check_seen, move_seen};
ghost use Rattle.clverify.specs.Commands.Certify.{move_call, move_places};
ghost use Rattle.clverify.specs.Commands.Check.{check_call};

use call_words::read_name;
use vf_text::read_count;

/// The most digits of a move's number.
const MOVE_PLACES: usize = 5;

/// A move that is asked for: the program's file, the setup's, and the move's number, counted from 1.
#[derive(Clone, Copy)]
pub(crate) struct MoveWords<'a> {
    pub(crate) file: &'a str,
    pub(crate) setup: &'a str,
    pub(crate) number: u32,
}

/// A move that is asked for, and the file of a certificate for it.
#[derive(Clone, Copy)]
pub(crate) struct CheckWords<'a> {
    pub(crate) move_asked: MoveWords<'a>,
    pub(crate) cert: &'a str,
}

/// The move that three words ask for, where they are two names and a number.
pub(crate) fn read_move<'a>(file: &'a str, setup: &'a str, number: &'a str) -> Option<MoveWords<'a>>
    ensures { option_map move_seen result ≡ move_call (named file.now) (named setup.now) (number_spelt move_places number.now) }
{
    Some(MoveWords {
        file: read_name(file)?,
        setup: read_name(setup)?,
        number: read_count(number.as_bytes(), MOVE_PLACES)?,
    })
}

/// The same with the name of a certificate's file.
pub(crate) fn read_check<'a>(
    file: &'a str,
    setup: &'a str,
    number: &'a str,
    cert: &'a str,
) -> Option<CheckWords<'a>>
    ensures { option_map check_seen result
        ≡ check_call (move_call (named file.now) (named setup.now) (number_spelt move_places number.now)) (named cert.now) }
{
    Some(CheckWords {
        move_asked: read_move(file, setup, number)?,
        cert: read_name(cert)?,
    })
}
