// From a file to its tables, or to the first rule that it breaks. The file is lent and only read.
#![tactic(auto)]

ghost use Rattle.std.specs.Prelude.{◌≡◌, ◌≤◌, [], ◌∷◌, true, MatchOption, IfOk};
ghost use Rattle.lists.specs.Words.{first_failing, found};
ghost use Rattle.lists.specs.Tests.{first_of};
ghost use Rattle.answers.specs.Refusals.{refusal_number};
ghost use Rattle.file.specs.Blocks.{first_damaged, first_misfiled};
ghost use Rattle.tables.specs.Bounds.{most_segments, bounds};
ghost use Rattle.decoding.specs.Decoding.{decoded};
ghost use Rattle.reading.specs.Verdict.{header_filed, reserved, record_ok, at_block, table_tests, reading_of};
ghost use Rattle.reading.specs.Results.{told_fault, read_as};

use answers::Refusal;
use blocks::{block_of, first_damaged, first_misfiled};
use decoding::{decode, segment_block, segment_start};
use file::File;
use lists::first_failing;
use octets::{are_zeros, byte};
use reading::Fault;
use records::{header_ok, margin_ok, segment_ok};
use routes::first_bad_route;
use rules::{first_dropping, first_unjoined, first_unordered};
use tables::{MOST_SEGMENTS, Tables};

#[tactic(auto, unfolding(reading::specs::Verdict::header_filed))]
fn is_header_filed(file: &File) -> bool
    ensures { result ≡ header_filed file.now }
{
    let header = block_of(file, 0);
    byte(header, 0) == 1 && byte(header, 3) == 0 && are_zeros(header, 12, 495)
}

// The five zeros that end segment record s.
#[tactic(auto, unfolding(reading::specs::Verdict::reserved))]
fn is_reserved(file: &File, s: u8) -> bool
    requires { s ≤ 62 }
    ensures { result ≡ reserved file.now s }
{
    let start = segment_start(s.saturating_sub(1) as usize);
    are_zeros(segment_block(file, s as u16), start + 11, start + 15)
}

// The least segment record that breaks rule 6, in what the tables keep of it or in its zeros.
#[tactic(auto, unfolding(reading::specs::Verdict::record_ok))]
fn first_bad_record(file: &File, t: &Tables) -> Option<u8>
    ensures { result ≡ found (first_failing most_segments (record_ok bounds file.now t.now)) }
{
    first_failing(MOST_SEGMENTS, |s| segment_ok(t, s) & is_reserved(file, s))
}

// A refusal at the place that was found, if one was.
fn none_at(refusal: Refusal, place: Option<u8>) -> Result<(), Fault>
    ensures { MatchOption place (told_fault result ≡ first_of []) (λ p. told_fault result ≡ record { holds = true; number = refusal_number refusal; place = p }) }
{
    match place {
        Some(n) => Err(Fault {
            refusal,
            place: n as u16,
        }),
        None => Ok(()),
    }
}

// Rules 2 to 10, of a file of the right size.
#[tactic(auto, using(crate::proofs::Header::braking_some))]
fn judge(file: &File) -> Result<Tables, Fault>
    ensures verdict { told_fault result ≡ first_of (at_block (first_damaged file.now) 2 ∷ at_block (first_misfiled file.now) 3 ∷ table_tests bounds file.now (decoded file.now)) }
    ensures tables { IfOk result (λ T. T ≡ decoded file.now) }
{
    // Blocks are found counted from 1, and their places are counted from 0.
    none_at(
        Refusal::Damaged,
        first_damaged(file).map(|n| n.saturating_sub(1)),
    )?;
    none_at(
        Refusal::Misfiled,
        first_misfiled(file).map(|n| n.saturating_sub(1)),
    )?;
    let t = decode(file);
    if !is_header_filed(file) || !header_ok(&t) {
        return Err(Refusal::Header.into());
    }
    if !margin_ok(&t) {
        return Err(Refusal::Margin.into());
    }
    none_at(Refusal::Segment, first_bad_record(file, &t))?;
    none_at(Refusal::Joint, first_unjoined(&t))?;
    none_at(Refusal::Order, first_unordered(&t))?;
    none_at(Refusal::Drop, first_dropping(&t))?;
    none_at(Refusal::Route, first_bad_route(&t))?;
    Ok(t)
}

#[tactic(auto, unfolding(reading::specs::Verdict::reading_of, reading::specs::Verdict::verdict))]
pub fn read(file: &[u8]) -> Result<Tables, Fault>
    ensures { read_as result ≡ reading_of file.now }
{
    match <&File>::try_from(file) {
        Ok(file) => judge(file),
        Err(_) => Err(Refusal::Size.into()),
    }
}
