// A season, read from a source or from bytes.
ghost use Rattle.std.specs.Prelude.{◌≡◌, ◌≤◌, false, is_some, map};
ghost use Rattle.office_base.specs.Version.{IsVersion};
ghost use Rattle.rank_lists.specs.Register.{find_holder};
ghost use Rattle.choice_lists.specs.Choices.{AreChoices};
ghost use Rattle.choice_lists.specs.OneProof.{AreChoices-prop};
ghost use Rattle.season_file.specs.Kept.{IsVersion-prop};

use crate::content::{Content, ReadBundle, read_bytes, read_content};
use crate::fault::SeasonFault;
use choice_lists::Choices;
use office_base::{Source, Text, Token};
use rank_lists::Register;
use request_rows::Script;
use seat_matrix::Matrix;
use std::alloc::Global;

/// A season: what the first line and the four sections of a bundle give, and the bundle without its requests as `text`.
#[derive(Drop)]
pub struct Season {
    /// The version of the rules, which is 1 or 2.
    pub version: u8,
    /// The number of rounds, from 1 to 10.
    pub rounds: u16,
    /// The clerk's token, which is no candidate's.
    pub clerk: Token,
    pub register: Register,
    pub matrix: Matrix,
    /// One list for each candidate of the register, in its order. Each names distinct programmes of the matrix, in whose merit
    /// lists the candidate has a place.
    pub choices: Choices,
    pub text: Text,
    pub ghost known_version: { IsVersion version } by { IsVersion-prop version },
    pub ghost some_rounds: { 1 ≤ rounds },
    pub ghost few_rounds: { rounds ≤ 10 },
    pub ghost clerk_apart: { is_some (find_holder clerk register.holders) ≡ false },
    pub ghost aligned: { map (λ held. held.0) choices ≡ map (λ person. person.id.0) register.people },
    pub ghost sound: { AreChoices register matrix choices } by { AreChoices-prop register matrix choices },
}

impl Season {
    ghost use Rattle.std.specs.Prelude.{[], IfOk, IfErr, IsErrOf};
    ghost use Rattle.office_base.specs.Outside.{Rose};
    ghost use Rattle.season_file.specs.Season.{AreAligned, BundleGives, GaveSeason, IsSeason, IsSeasonFault, IsSeasonWith, IsSourceFault, content_of};

    /// The season of a bundle without requests, or its first fault. It never answers `ReadFault` or `BadRequest`.
    pub fn from_text(alloc: Global, bytes: &[u8]) -> Result<Season, SeasonFault>
        ensures value { IfOk result (λ season. IsSeason bytes.now season) }
        ensures fault { IfErr result (λ fault. IsSeasonFault false bytes.now fault) }
    {
        let ReadBundle { content, .. } = read_content(alloc, bytes, false)?;
        let mut text = Text::new(alloc);
        text.extend_from_slice(bytes)?;
        Ok(Season::with_text(content, text))
    }

    /// The season and the requests of the bytes that a source gives up to its end, or their first fault. Where requests are not
    /// read, their section is a fault of the sections; where it is not there, there are none. The season's text is the bundle
    /// without that section.
    pub fn read<S: Source>(
        alloc: Global,
        source: &mut S,
        requests: bool,
    ) -> Result<(Season, Script), SeasonFault>
        ensures value { IfOk result (λ read.
            GaveSeason requests (S.left source.old) (S.left source.new) read.0 read.1) }
        ensures text { IfOk result (λ read. IsSeason read.0.text read.0) }
        ensures fault { IfErr result (λ fault.
            IsSourceFault requests (S.left source.old) (S.left source.new) fault) }
        ensures cause { IsErrOf result SeasonFault.ReadFault
            → Rose (S.faults source.old) (S.faults source.new) }
        ensures count { S.faults source.old ≤ S.faults source.new }
        ensures steady { ¬ IsErrOf result SeasonFault.ReadFault
            → S.faults source.new ≡ S.faults source.old }
    {
        let text = read_bytes(alloc, source)?;
        Season::of_text(alloc, text, requests)
    }

    /// Returns the season and the requests of a bundle, as `read` gives them, or its first fault. Consumes the text:
    /// the season keeps what is before the section of the requests, and the memory after that part is given back.
    /// Never returns `ReadFault`.
    pub fn of_text(
        alloc: Global,
        text: Text,
        requests: bool,
    ) -> Result<(Season, Script), SeasonFault>
        ensures value { IfOk result (λ read. IsSeasonWith requests text read.0 read.1) }
        ensures text { IfOk result (λ read. IsSeason read.0.text read.0) }
        ensures fault { IfErr result (λ fault. IsSeasonFault requests text fault) }
    {
        let mut text = text;
        let ReadBundle {
            content,
            script,
            end,
        } = match read_content(alloc, text.as_slice(), requests) {
            Ok(given) => given,
            Err(fault) => return Err(fault),
        };
        text.truncate(end);
        text.shrink_to_fit();
        Ok((Season::with_text(content, text), script))
    }

    /// The season of this content and text.
    fn with_text(content: Content, text: Text) -> Season
        requires given { BundleGives false text content [] }
        requires aligned { AreAligned content }
        ensures season { IsSeason text result }
        ensures content { content_of result content.head.row ≡ content }
        ensures text { result.text ≡ text }
    {
        let Content {
            version,
            head,
            register,
            matrix,
            choices,
        } = content;
        Season {
            version,
            rounds: head.rounds,
            clerk: head.clerk,
            register,
            matrix,
            choices,
            text,
        }
    }
}
