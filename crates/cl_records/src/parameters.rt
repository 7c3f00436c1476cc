ghost use Rattle.std.specs.Prelude.{◌≡◌, ◌∷◌, [], None, Some, length, option_map, MatchOption};
ghost use Rattle.cl_records.specs.Parameters.{only_of, parameters_of, split_parameters};

use crate::field::{count_fields, split_field, trim};
use std::marker::Model;
use vf_text::{has_only_blanks, skip_blanks};

/// The parameters of a record that are left. Their value is a list of texts.
#[derive(Drop)]
pub(crate) struct Parameters<'a> {
    fields: Option<&'a [u8]>,
}

impl<'a> Model for Parameters<'a> {
    ghost use Rattle.std.specs.Prelude.{ℕ, List, [], map};
    ghost use Rattle.std.specs.Option.{option_map_or};
    ghost use Rattle.cl_records.specs.Parameters.{fields_of, trimmed};

    ghost Value = { List (List ℕ) };

    ghost view = { λ p. option_map_or (λ f. map trimmed (fields_of f.now)) p.fields [] };
}

impl<'a> Parameters<'a> {
    /// The parameters after a word, where nothing but blanks and a slash comes before them.
    pub(crate) fn read(behind: &'a [u8]) -> Option<Parameters<'a>>
        ensures { MatchOption result (parameters_of behind.now ≡ None) (λ p. parameters_of behind.now ≡ Some p) }
    {
        match skip_blanks(behind) {
            [] => Some(Parameters { fields: None }),
            [b'/', fields @ ..] => Some(Parameters::split(fields)),
            _ => None,
        }
    }

    /// The parameters after the slash.
    fn split(fields: &'a [u8]) -> Parameters<'a>
        ensures { result ≡ split_parameters fields.now }
    {
        if has_only_blanks(fields) {
            Parameters { fields: None }
        } else {
            Parameters {
                fields: Some(fields),
            }
        }
    }

    /// How many are left.
    pub(crate) fn count(&self) -> usize
        ensures { result ≡ length self.now }
    {
        match self.fields {
            None => 0,
            Some(fields) => count_fields(fields),
        }
    }

    /// Takes the next one.
    pub(crate) fn next(&mut self) -> Option<&'a [u8]>
        ensures { MatchOption result ((self.old ≡ []) × (self.new ≡ [])) (λ text. self.old ≡ text.now ∷ self.new) }
    {
        let (field, rest) = split_field(self.fields?);
        self.fields = rest;
        Some(trim(field))
    }

    /// The only one that is left, where there is one and no more.
    pub(crate) fn only(mut self) -> Option<&'a [u8]>
        ensures { option_map (λ text. text.now) result ≡ only_of self.entry }
    {
        let text = self.next()?;
        match self.next() {
            None => Some(text),
            Some(_) => None,
        }
    }
}
