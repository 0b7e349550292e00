// What a frame begins with.
ghost use Rattle.std.specs.Prelude.{◌≡◌, ◌↔◌, IsTrue, false, length, OnOk, OnErr, IfOk, IfSome, MatchOption};
ghost use Rattle.std.specs.Option.{IsSome};
ghost use Rattle.std.specs.List.{fold};
ghost use Rattle.cov_data.specs.DataSet.{with_path};
ghost use Rattle.cov_recorder.specs.Plan.{unit_at, set_at, HaveFirsts};
ghost use Rattle.cov_recorder.specs.Names.{names_of};
ghost use Rattle.cov_recorder.specs.Recording.{utf8_of, begun};
ghost use Rattle.cov_recorder.specs.Counters.{MakesRow};
ghost use Rattle.cov_recorder.specs.Frames.{GoesOn, HasSeat, IsSeated, SharesRow};

use crate::frames::{Frame, Seat};
use crate::names::UnitName;
use crate::rows::Rows;
use crate::units::unit_at;
use cov_data::Data;
use cov_event::CodeId;
use cov_predict::ArcSet;
use py_text::{NoMemory, Text};
use std::alloc::Global;

/// The seat of this code under this label. The row of the frame around it serves where module and
/// label are the same. Else one is looked for, and made where there is none yet.
pub(crate) fn seat_of(
    alloc: Global,
    units: &[Vec<UnitName>],
    sets: &[ArcSet],
    rows: &mut Rows,
    outer: Option<&Frame>,
    code: CodeId,
    label: &Option<Text>,
) -> Result<Option<Seat>, NoMemory>
    requires firsts { HaveFirsts (names_of units.now) }
    requires outer { IfSome outer (λ frame.
        IsSeated (names_of units.now) rows.old frame.now) }
    requires label { IfSome outer (λ frame. GoesOn frame.now.label label.now) }
    ensures seat { IfOk result (λ seat.
        HasSeat (names_of units.now) rows.new code label.now seat) }
    ensures row { MakesRow rows.old code.module (utf8_of label.now)
        (length (set_at sets.now code.module)) rows.new }
{
    match unit_at(units, code) {
        Some(unit) => {
            let row = match shared_row(outer, code.module, label) {
                Some(row) => row,
                None => {
                    let size = size_of(sets, code.module);
                    rows.number_of(alloc, code.module, utf8_of(label), size)?
                }
            };
            Ok(Some(Seat {
                first: unit.first,
                row,
            }))
        }
        None => Ok(None),
    }
}

/// The row of a frame, where it is one of this module and label.
fn shared_row(outer: Option<&Frame>, module: u32, label: &Option<Text>) -> Option<usize>
    requires { IfSome outer (λ frame. GoesOn frame.now.label label.now) }
    ensures { IfSome result (λ row. MatchOption outer.entry ⊥ (λ frame.
        SharesRow frame.now «module» label.now row)) }
{
    let Some(frame) = outer else {
        return None;
    };
    let Some(seat) = frame.seat else {
        return None;
    };
    let goes_on = frame.label.is_some() || label.is_none();
    if goes_on && frame.code.module == module {
        Some(seat.row)
    } else {
        None
    }
}

/// How many counters a row of a module has.
fn size_of(sets: &[ArcSet], module: u32) -> usize
    ensures { result ≡ length (set_at sets.now «module») }
{
    match sets.get(module as usize) {
        Some(set) => set.len() as usize,
        None => 0,
    }
}

fn utf8_of(label: &Option<Text>) -> &str
    ensures { result.now ≡ utf8_of label.now }
{
    match label {
        Some(label) => label.as_str(),
        None => "",
    }
}

pub(crate) fn copy_of(label: &Option<Text>) -> Result<Option<Text>, NoMemory>
    ensures { IfOk result (λ copy. copy ≡ label.now) }
{
    match label {
        Some(label) => Ok(Some(label.copy()?)),
        None => Ok(None),
    }
}

pub(crate) fn has_label(frame: Option<&Frame>) -> bool
    ensures { MatchOption frame.entry (result ≡ false) (λ frame.
        IsTrue result ↔ IsSome frame.now.label) }
{
    match frame {
        Some(frame) => frame.label.is_some(),
        None => false,
    }
}

/// Tells the path of a module whose body begins.
pub(crate) fn tell_path(
    units: &[Vec<UnitName>],
    data: &mut Data,
    code: CodeId,
) -> Result<(), NoMemory>
    ensures ok { OnOk result (data.new
        ≡ fold with_path data.old (begun code.unit (unit_at (names_of units.now) code))) }
    ensures err { OnErr result (data.new ≡ data.old) }
{
    if code.unit == 0 {
        if let Some(body) = unit_at(units, code) {
            return data.add_path(body.path.as_str());
        }
    }
    Ok(())
}
