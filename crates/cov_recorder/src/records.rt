// What a recorder keeps of the events, apart from who gives labels.
ghost use Rattle.std.specs.Prelude.{◌≡◌, map, Some, None, OnOk, OnErr, IfOk, MatchOption};
ghost use Rattle.cov_recorder.specs.Plan.{plan_with};
ghost use Rattle.cov_recorder.specs.Names.{names_of};
ghost use Rattle.cov_recorder.specs.Rows.{row_from, with_rows, AreSound};

use crate::frames::{Frame, Frames};
use crate::gather::add_rows;
use crate::hints::Hints;
use crate::names::UnitName;
use crate::plan::RunPlan;
use crate::rows::{Counters, Rows};
use crate::seats::{copy_of, has_label, seat_of, tell_path};
use crate::steps::count;
use crate::units::unit_at;
use cov_data::Data;
use cov_event::CodeId;
use cov_predict::ArcSet;
use py_text::{NoMemory, Text};
use std::alloc::Global;
use std::marker::Model;

/// The last line that a text may have.
const LAST_LINE: u32 = 65_535;

/// Open frames, and the counts of their steps.
#[derive(Drop)]
pub(crate) struct Records {
    units: Vec<Vec<UnitName>>,
    sets: Vec<ArcSet>,
    arcs: bool,
    fixed: String,
    hints: Hints,
    frames: Frames,
    rows: Rows,
    data: Data,
}

impl Model for Records {
    ghost use Rattle.cov_recorder.specs.Recording.{Recording};
    ghost use Rattle.cov_recorder.specs.Codes.{recording_code};

    ghost Value = { Recording };

    ghost coded = { recording_code };

    ghost use Rattle.cov_recorder.specs.Records.{recording_from, IsRecorded};

    ghost view = { recording_from };

    ghost invariant = { IsRecorded };
}

impl Records {
    ghost use Rattle.cov_event.specs.declared.event.Event.TheVariants.{Call, Line, Return};
    ghost use Rattle.cov_recorder.specs.Plan.{named};
    ghost use Rattle.cov_recorder.specs.Recording.{at_first, label_now, next};
    ghost use Rattle.cov_recorder.specs.Labels.{question, IsUnasked};
    ghost use Rattle.cov_recorder.specs.Frames.{GoesOn};

    pub(crate) fn new(alloc: Global, plan: RunPlan) -> Result<Records, NoMemory>
        ensures { IfOk result (λ records. records ≡ at_first plan) }
    {
        let RunPlan {
            units,
            sets,
            arcs,
            fixed,
            hints,
        } = plan;
        let rows = Rows::new(alloc, units.len())?;
        Ok(Records {
            units,
            sets,
            arcs,
            fixed,
            hints,
            frames: Frames::new(alloc),
            rows,
            data: Data::new(alloc, arcs),
        })
    }

    /// The unit to ask about as this code begins: a known function, where no label is in progress.
    pub(crate) fn asked(&self, code: CodeId) -> Option<&UnitName>
        ensures { MatchOption result (IsUnasked self.now code) (λ unit.
            (label_now self.now.frames ≡ None)
            × (question self.now.plan code ≡ Some (named unit.now))) }
    {
        if code.unit == 0 || has_label(self.frames.innermost()) {
            return None;
        }
        unit_at(&self.units, code)
    }

    /// A copy of the label in progress.
    pub(crate) fn label(&self) -> Result<Option<Text>, NoMemory>
        ensures { IfOk result (λ label. label ≡ label_now self.now.frames) }
    {
        match self.frames.innermost() {
            Some(frame) => copy_of(&frame.label),
            None => Ok(None),
        }
    }

    /// A frame begins for this code, with this label.
    pub(crate) fn begin(
        &mut self,
        alloc: Global,
        code: CodeId,
        label: Option<Text>,
    ) -> Result<(), NoMemory>
        requires { GoesOn (label_now self.old.frames) label }
        ensures ok { OnOk result (self.new ≡ next label self.old (Call code)) }
        ensures err { OnErr result (self.new ≡ self.old) }
    {
        let seat = seat_of(
            alloc,
            &self.units,
            &self.sets,
            &mut self.rows,
            self.frames.innermost(),
            code,
            &label,
        )?;
        self.frames.push(Frame {
            code,
            line: 0,
            label,
            seat,
        })?;
        if let Err(refused) = tell_path(&self.units, &mut self.data, code) {
            drop(self.frames.pop());
            return Err(refused);
        }
        Ok(())
    }

    /// The innermost frame comes to a line.
    pub(crate) fn line(&mut self, line: u32)
        ensures { self.new ≡ next None self.old (Line line) }
    {
        if line == 0 || line > LAST_LINE {
            return;
        }
        if let Some(frame) = self.frames.innermost() {
            count(
                &self.sets,
                self.arcs,
                &mut self.hints,
                &mut self.rows,
                frame,
                line,
            );
            self.frames.begin(line);
        }
    }

    /// The innermost frame ends.
    pub(crate) fn leave(&mut self)
        ensures { self.new ≡ next None self.old Return }
    {
        if self.arcs {
            if let Some(frame) = self.frames.innermost() {
                count(&self.sets, true, &mut self.hints, &mut self.rows, frame, 0);
                drop(self.frames.pop());
            }
        } else {
            drop(self.frames.pop());
        }
    }

    /// The data of all events, and the plan.
    pub(crate) fn finish(self, alloc: Global) -> (Result<Data, NoMemory>, RunPlan)
        ensures data { IfOk result.0 (λ found. found ≡ self.data) }
        ensures plan { result.1 ≡ self.plan }
    {
        let Records {
            units,
            sets,
            arcs,
            fixed,
            hints,
            frames,
            rows,
            data,
        } = self;
        drop(frames);
        let found = gathered(alloc, &units, &sets, fixed.as_str(), rows.as_slice(), data);
        let plan = RunPlan {
            units,
            sets,
            arcs,
            fixed,
            hints,
        };
        (found, plan)
    }
}

/// Data with the rows of rows of counters besides.
fn gathered(
    alloc: Global,
    units: &[Vec<UnitName>],
    sets: &[ArcSet],
    fixed: &str,
    rows: &[Counters],
    bare: Data,
) -> Result<Data, NoMemory>
    requires { AreSound (plan_with (names_of units.now) sets.now bare.arcs fixed.now)
        (map row_from rows.now) }
    ensures { IfOk result (λ found. found
        ≡ with_rows (plan_with (names_of units.now) sets.now bare.arcs fixed.now)
        (map row_from rows.now) bare) }
{
    let mut found = bare;
    add_rows(alloc, units, sets, fixed, rows, &mut found)?;
    Ok(found)
}
