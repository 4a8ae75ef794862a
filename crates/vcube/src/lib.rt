// The calls for C and Rust, as include/vcube.h declares them. None has a `requires`: any numbers and buffers are taken. Each returns 0 or the
// number of its refusal.
#![tactic(auto)]

ghost use Rattle.std.specs.Prelude.{◌≡◌, min, ◌++◌, ◌+◌, length, ◌<◌, [], slice_range, IfOk};
ghost use Rattle.std.specs.Result.{result_unwrap_or};
ghost use Rattle.lists.specs.Refusal.{number_of_result};
ghost use Rattle.table.specs.Rules.{shape_check};
ghost use Rattle.table.specs.Fresh.{fresh_after};
ghost use Rattle.station.specs.Calls.{group_check, group_after, row_check, row_part, row_offset, assignment_answer, assignment_after};
ghost use Rattle.station.specs.Calls.{assignment_count};
ghost use Rattle.plant.specs.Entry.{state_of};
ghost use Rattle.detection.specs.Runs.{call_of, run_by, CountsTaken};
ghost use Rattle.detection.specs.InList.{DetectionInList, DrivenDetectionInList};
ghost use Rattle.detection.specs.Driven.{a_run, a_drive, drive_by};
ghost use Rattle.accuracy.specs.Accurate.{AccurateAfter};
ghost use Rattle.granter.specs.Grant.{grant_answer, grant_station};
ghost use Rattle.granter.specs.Drive.{StoppedIfTaken};
ghost use Rattle.lamp.specs.Doubt.{doubt_lamp};
ghost use Rattle.mender.specs.Report.{mend, mended_after, report_after};
ghost use Rattle.saved.specs.Load.{saved_size, size_figure, load_answer, loaded_figures, load_after};
ghost use Rattle.saved.specs.Save.{save_check, save_after};
ghost use Rattle.saved.specs.Convert.{convert_check, convert_after, converted_length, length_figure};
ghost use Rattle.figures.specs.Batch.{figures};
ghost use Rattle.figures.specs.Totals.{totals, join, figures_of_totals};
ghost use Rattle.table.specs.Wiring.{wiring_of};
ghost use Rattle.vcube.specs.Exports.{on_wiring, no_such_wiring};
ghost use Rattle.vcube.specs.Exports.{outcome_out, run_out, drive_out, driven_out, pair_out, pair_of, tally_of, loaded_out, filled, figures_members};
ghost use Rattle.slots.specs.Board.{slot_answer};
ghost use Rattle.latency.specs.Wait.{wait_answer};
ghost use Rattle.single_crash.specs.Bounds.{one_dead_answer};
ghost use Rattle.std.proofs.lemmas.List.Edits.{sets};
ghost use Rattle.input.specs.Input.{read_input};
ghost use Rattle.vcube.specs.WordsFit.{InputWordsFit};
ghost use Rattle.vcube.specs.Exports.{schedule_length, words_length, worded, words_of_input, input_check, input_out, input_figures, schedule_after};
ghost use Rattle.vcube.specs.Exports.{input_words_after};
ghost use Rattle.vcube.specs.Exports.{slot_out, slot_figures, wait_out, wait_figures, one_dead_out, one_dead_figures};
ghost use Rattle.vcube.specs.Exports.{words_check, words_after, words_of_refusal, words_of_status, words_of_outcome};
ghost use Rattle.vcube.specs.Exports.{version_number};
ghost use Rattle.vcube.specs.Exports.{totals_members, totals_with, figures_out, totals_out};

pub mod boards;
pub mod claims;

use figures::{Figures, Totals, adding, batch};
use granter::{drive, grant};
use input::reading::{self, Parsed};
use latency::wait::{self, Wait};
use lists::bytes;
use lists::refusal::{Refusal, number_of, parts};
use plant::{Tally, run};
use saved::{Loaded, convert, load, save};
use single_crash::bounds;
use slots::board::{self, Slot};
use station::outcome::Outcome;
use station::{due, groups, rows};
use table::status::Status;
use table::wiring::Wiring;
use table::{Level, Station, cells, fresh};

// Stands for the two stations of a pair where the doubt lamp has none, and for the station of a board's next test where there is none.
const NO_STATION: u8 = 255;

// Refusal 24.
const NO_SUCH_WIRING: u8 = Refusal::NoSuchWiring as u8;

// The version of the library, as in include/vcube.h.
const MAJOR: u32 = 1;

const MINOR: u32 = 4;

const PATCH: u32 = 0;

// Version: that of the library, as one number.
#[unsafe(no_mangle)]
pub extern "C" fn vcube_version() -> u32
    ensures { result ≡ version_number 1 4 0 }
{
    10000 * MAJOR + 100 * MINOR + PATCH
}

// Fresh table: every line live, next distance 1, byte 4 255, all else 0.
#[tactic(auto, using(crate::proofs::OnWiring::on_each))]
#[unsafe(no_mangle)]
pub extern "C" fn vcube_fresh_table(wiring: usize, n: usize, table: &mut [u8]) -> u8
    ensures number { let len = length table.old in
        result ≡ on_wiring wiring no_such_wiring (λ w. number_of_result (shape_check n len)) }
    ensures table_after { table.new ≡ on_wiring wiring table.old (λ w. fresh_after n table.old) }
{
    if Wiring::try_from(wiring).is_err() {
        return NO_SUCH_WIRING;
    }
    number_of(fresh::fresh_table(n, table))
}

// Group list: the members of the station's group at that level, in order.
#[tactic(auto, using(crate::proofs::Narrow::group_check_narrow, crate::proofs::Narrow::group_after_narrow))]
#[unsafe(no_mangle)]
pub extern "C" fn vcube_group_list(n: usize, station: usize, level: usize, list: &mut [u8]) -> u8
    ensures number { result ≡ number_of_result (group_check n station level (length list.old)) }
    ensures list_after { list.new ≡ group_after n station level list.old }
{
    let check = groups::group_list(n, Station(byte_of(station)), Level(byte_of(level)), list);
    number_of(check)
}

// Assignment of a live station: for each other station, by ascending distance, the distance, and 255 if it is due or else the one ahead; how many
// are due into count, 0 where it is refused.
#[tactic(auto, using(crate::proofs::Narrow::assignment_answer_narrow, crate::proofs::Narrow::assignment_after_narrow))]
#[unsafe(no_mangle)]
pub extern "C" fn vcube_assignment(
    n: usize,
    table: &[u8],
    station: usize,
    list: &mut [u8],
    count: &mut usize,
) -> u8
    ensures number { result ≡ number_of_result (assignment_answer n table.now station (length list.old)) }
    ensures count_after { count.new ≡ assignment_count n table.now station (length list.old) }
    ensures list_after { list.new ≡ assignment_after n table.now station list.old }
{
    let (number, due) = parts(
        due::assignment(n, table, Station(byte_of(station)), list),
        0,
    );
    *count = due as usize;
    number
}

// Row: where the station's row begins in the table, and how many bytes it has; both 0 where it is refused.
#[tactic(auto, using(crate::proofs::OnWiring::on_each, crate::proofs::RowPart::row_laws))]
#[unsafe(no_mangle)]
pub extern "C" fn vcube_row(
    wiring: usize,
    n: usize,
    table: &[u8],
    station: usize,
    start: &mut usize,
    bytes: &mut usize,
) -> u8
    ensures number { let t = table.now in
        result ≡ on_wiring wiring no_such_wiring (λ w. number_of_result (row_check w n t station)) }
    ensures start_after { let t = table.now in
        start.new ≡ on_wiring wiring 0 (λ w. row_offset w n t station) }
    ensures bytes_after { let t = table.now in
        bytes.new ≡ on_wiring wiring 0 (λ w. length (row_part w n t station)) }
    ensures row_at { slice_range table.now start.new (start.new + bytes.new)
        ≡ on_wiring wiring [] (λ w. row_part w n table.now station) }
{
    let Ok(wiring) = Wiring::try_from(wiring) else {
        *start = 0;
        *bytes = 0;
        return NO_SUCH_WIRING;
    };
    let i = Station(byte_of(station));
    // Not by `parts`: where the row begins is asked only of a station that is not refused.
    match rows::check_row(wiring, n, table, i) {
        Ok(()) => {
            *start = cells::row_start(n as u8, i);
            *bytes = n;
            0
        }
        Err(refusal) => {
            *start = 0;
            *bytes = 0;
            refusal.number()
        }
    }
}

// Run: carries out a schedule on a table and the tally that rounds and tests hold, and fills the sheet. The tally given back is left in
// rounds and tests, and how many entries were taken in taken.
#[unsafe(no_mangle)]
pub extern "C" fn vcube_run(
    wiring: usize,
    n: usize,
    table: &mut [u8],
    rounds: &mut u32,
    tests: &mut u32,
    schedule: &[u8],
    sheet: &mut [u8],
    taken: &mut usize,
) -> u8
    ensures outcome { let s = state_of table.old rounds.old tests.old in
        outcome_out result taken.new table.new rounds.new tests.new sheet.new
        ≡ run_out (run_by (wiring_of wiring) n s schedule.now sheet.old) }
    ensures counts_taken { CountsTaken (call_of (wiring_of wiring) n schedule.now sheet.old)
        (state_of table.old rounds.old tests.old) taken.new }
    ensures detection { DetectionInList (call_of (wiring_of wiring) n schedule.now sheet.old)
        (state_of table.old rounds.old tests.old) (state_of table.new rounds.new tests.new) }
    ensures accurate { AccurateAfter (a_run (call_of (wiring_of wiring) n schedule.now sheet.old))
        (state_of table.old rounds.old tests.old) (state_of table.new rounds.new tests.new) }
{
    let Ok(wiring) = Wiring::try_from(wiring) else {
        *taken = 0;
        return NO_SUCH_WIRING;
    };
    let tally = Tally {
        rounds: *rounds,
        tests: *tests,
    };
    let ran = run::run(wiring, n, table, tally, schedule, sheet);
    *rounds = ran.tally.rounds;
    *tests = ran.tally.tests;
    *taken = ran.taken;
    plant::stop_refusal(ran.stopped)
}

// Grant: the station that is granted after the last one, 0 where it is refused.
#[tactic(auto, using(crate::proofs::OnWiring::on_each))]
#[unsafe(no_mangle)]
pub extern "C" fn vcube_grant(
    wiring: usize,
    n: usize,
    table: &[u8],
    last: usize,
    station: &mut usize,
) -> u8
    ensures number { result ≡ on_wiring wiring no_such_wiring (λ w. number_of_result (grant_answer w n table.now last)) }
    ensures station_after { station.new ≡ on_wiring wiring 0 (λ w. grant_station w n table.now last) }
{
    let Ok(wiring) = Wiring::try_from(wiring) else {
        *station = 0;
        return NO_SUCH_WIRING;
    };
    let (number, to) = parts(grant::grant(wiring, n, table, last), Station(0));
    *station = to.0 as usize;
    number
}

// Drive: grants and turns on a table and the tally that rounds and tests hold, until a round closes, nobody is left live, or a tally is
// full. The tally and the last granted number that it gives back are left in rounds, tests and last, and the grants made in grants.
#[unsafe(no_mangle)]
pub extern "C" fn vcube_drive(
    wiring: usize,
    n: usize,
    table: &mut [u8],
    rounds: &mut u32,
    tests: &mut u32,
    last: &mut usize,
    grants: &mut usize,
) -> u8
    ensures outcome { let s = state_of table.old rounds.old tests.old in
        drive_out result table.new rounds.new tests.new last.new grants.new
        ≡ driven_out (drive_by (wiring_of wiring) n s last.old) }
    ensures stopped_if_taken { let start = state_of table.old rounds.old tests.old in
        IfOk (wiring_of wiring) (λ w. StoppedIfTaken w n start last.old grants.new) }
    ensures detection { IfOk (wiring_of wiring) (λ w. DrivenDetectionInList w n last.old
        (state_of table.old rounds.old tests.old) (state_of table.new rounds.new tests.new)) }
    ensures accurate { AccurateAfter (a_drive (wiring_of wiring) n last.old)
        (state_of table.old rounds.old tests.old) (state_of table.new rounds.new tests.new) }
{
    let Ok(wiring) = Wiring::try_from(wiring) else {
        *grants = 0;
        return NO_SUCH_WIRING;
    };
    let tally = Tally {
        rounds: *rounds,
        tests: *tests,
    };
    let driven = drive::drive(wiring, n, table, tally, *last);
    *rounds = driven.tally.rounds;
    *tests = driven.tally.tests;
    *last = driven.last;
    *grants = driven.grants;
    plant::stop_refusal(driven.stopped)
}

// Doubt lamp: the first live station that suspects a live one into by, and whom into of; 255 into both where there is none, 0 where it is refused.
#[tactic(auto, using(crate::proofs::OnWiring::on_each))]
#[unsafe(no_mangle)]
pub extern "C" fn vcube_doubt_lamp(
    wiring: usize,
    n: usize,
    table: &[u8],
    by: &mut usize,
    of: &mut usize,
) -> u8
    ensures { pair_out result by.new of.new
        ≡ on_wiring wiring (pair_out no_such_wiring 0 0) (λ w. pair_of (doubt_lamp w n table.now)) }
{
    let Ok(wiring) = Wiring::try_from(wiring) else {
        *by = 0;
        *of = 0;
        return NO_SUCH_WIRING;
    };
    let (number, i, k) = match lamp::doubt_lamp(wiring, n, table) {
        Ok(Some(doubt)) => (0, doubt.by.0, doubt.of.0),
        Ok(None) => (0, NO_STATION, NO_STATION),
        Err(refusal) => (refusal.number(), 0, 0),
    };
    *by = usize::from(i);
    *of = usize::from(k);
    number
}

// Mend: after a brownout the table made to obey all rules, each changed byte listed in the report; how many they are into changes, 0 where it is
// refused.
#[tactic(auto, using(crate::proofs::OnWiring::on_each))]
#[unsafe(no_mangle)]
pub extern "C" fn vcube_mend(
    wiring: usize,
    n: usize,
    table: &mut [u8],
    report: &mut [u8],
    changes: &mut usize,
) -> u8
    ensures number { let room = length report.old in
        result ≡ on_wiring wiring no_such_wiring (λ w. number_of_result (mend w n table.old room)) }
    ensures changes_after { let room = length report.old in
        changes.new ≡ on_wiring wiring 0 (λ w. result_unwrap_or (mend w n table.old room) 0) }
    ensures mended_table { let room = length report.old in
        table.new ≡ on_wiring wiring table.old (λ w. mended_after w n table.old room) }
    ensures listed_changes { report.new
        ≡ on_wiring wiring report.old (λ w. report_after w n table.old report.old) }
{
    let Ok(wiring) = Wiring::try_from(wiring) else {
        *changes = 0;
        return NO_SUCH_WIRING;
    };
    let (number, listed) = parts(mender::mend(wiring, n, table, report), 0);
    *changes = listed;
    number
}

// Save: the table and the tally as a saved plant, into a buffer of just its length.
#[unsafe(no_mangle)]
pub extern "C" fn vcube_save(
    n: usize,
    table: &[u8],
    rounds: u32,
    tests: u32,
    buffer: &mut [u8],
) -> u8
    ensures number { let tally = tally_of rounds tests in
        result ≡ number_of_result (save_check n table.now tally (length buffer.old)) }
    ensures buffer_after { buffer.new ≡ save_after n table.now (tally_of rounds tests) buffer.old }
{
    number_of(save::save(n, table, Tally { rounds, tests }, buffer))
}

// Load: a saved plant's table, into a buffer of just its length; its size and tally into n, rounds and tests, 0 where it is refused.
#[unsafe(no_mangle)]
pub extern "C" fn vcube_load(
    file: &[u8],
    table: &mut [u8],
    n: &mut usize,
    rounds: &mut u32,
    tests: &mut u32,
) -> u8
    ensures number { result ≡ number_of_result (load_answer file.now (length table.old)) }
    ensures loaded_after { loaded_out n.new rounds.new tests.new
        ≡ loaded_figures (load_answer file.now (length table.old)) }
    ensures table_after { table.new ≡ load_after file.now table.old }
{
    let (number, loaded) = parts(load::load(file, table), Loaded::default());
    *n = loaded.size as usize;
    *rounds = loaded.tally.rounds;
    *tests = loaded.tally.tests;
    number
}

// The size of a saved plant into n, 0 where it is refused.
#[unsafe(no_mangle)]
pub extern "C" fn vcube_saved_size(file: &[u8], n: &mut usize) -> u8
    ensures number { result ≡ number_of_result (saved_size file.now) }
    ensures n_after { n.new ≡ size_figure (saved_size file.now) }
{
    let (number, size) = parts(load::saved_size(file), 0);
    *n = size as usize;
    number
}

// Convert: a file of edition 1 as a saved plant, into a buffer of just its length.
#[unsafe(no_mangle)]
pub extern "C" fn vcube_convert(old: &[u8], buffer: &mut [u8]) -> u8
    ensures number { result ≡ number_of_result (convert_check old.now (length buffer.old)) }
    ensures buffer_after { buffer.new ≡ convert_after old.now buffer.old }
{
    number_of(convert::convert(old, buffer))
}

// The length of what a file of edition 1 is converted to, into len, 0 where it is refused.
#[unsafe(no_mangle)]
pub extern "C" fn vcube_converted_length(old: &[u8], len: &mut usize) -> u8
    ensures number { result ≡ number_of_result (converted_length old.now) }
    ensures len_after { len.new ≡ length_figure (converted_length old.now) }
{
    let (number, converted) = parts(convert::converted_length(old), 0);
    *len = converted;
    number
}

// Figures of one list: count, least, greatest, the upper and lower part of the mean and those of the variance, all 0 where it is refused.
#[unsafe(no_mangle)]
pub extern "C" fn vcube_figures_of_list(results: &[u16], answer: &mut [u64; 7]) -> u8
    ensures { filled result answer.new ≡ figures_out (figures results.now) }
{
    let (number, of_list) = parts(batch::figures(results), Figures::default());
    *answer = figures_members(of_list);
    number
}

// Figures of two lists: those of the one list that holds both.
#[unsafe(no_mangle)]
pub extern "C" fn vcube_figures_of_two_lists(
    first: &[u16],
    second: &[u16],
    answer: &mut [u64; 7],
) -> u8
    ensures { filled result answer.new ≡ figures_out (figures (first.now ++ second.now)) }
{
    let (number, of_two) = parts(batch::figures_of_two(first, second), Figures::default());
    *answer = figures_members(of_two);
    number
}

// Totals of a list: count, sum, sum of squares, least, greatest, all 0 where it is refused.
#[unsafe(no_mangle)]
pub extern "C" fn vcube_totals_of_list(results: &[u16], answer: &mut [u64; 5]) -> u8
    ensures { filled result answer.new ≡ totals_out (totals results.now) }
{
    let (number, summed) = parts(adding::totals(results), Totals::default());
    *answer = totals_members(summed);
    number
}

// Join: the totals of the results of both.
#[unsafe(no_mangle)]
pub extern "C" fn vcube_join_totals(
    first: &[u64; 5],
    second: &[u64; 5],
    answer: &mut [u64; 5],
) -> u8
    ensures { filled result answer.new ≡ totals_out (join (totals_with first.now) (totals_with second.now)) }
{
    let both = adding::join(totals_with(first), totals_with(second));
    let (number, joined) = parts(both, Totals::default());
    *answer = totals_members(joined);
    number
}

// Figures of totals that the caller kept.
#[unsafe(no_mangle)]
pub extern "C" fn vcube_figures_of_totals(kept: &[u64; 5], answer: &mut [u64; 7]) -> u8
    ensures { filled result answer.new ≡ figures_out (figures_of_totals (totals_with kept.now)) }
{
    let of_kept = batch::figures_of_totals(totals_with(kept));
    let (number, figures) = parts(of_kept, Figures::default());
    *answer = figures_members(figures);
    number
}

// Slot: how many tests a live station makes a round by its row, into tests, and the most that one more dead station can make of them, by which its
// slot is timed, into most; both 0 where it is refused.
#[tactic(auto, using(crate::proofs::Narrow::slot_narrow))]
#[unsafe(no_mangle)]
pub extern "C" fn vcube_slot(
    n: usize,
    table: &[u8],
    station: usize,
    tests: &mut usize,
    most: &mut usize,
) -> u8
    ensures number { result ≡ number_of_result (slot_answer n table.now station) }
    ensures slot_after { slot_out tests.new most.new ≡ slot_figures n table.now station }
{
    let answer = board::slot_of(n, table, Station(byte_of(station)));
    let (number, slot) = parts(answer, Slot::default());
    *tests = usize::from(slot.tests);
    *most = usize::from(slot.most);
    number
}

// Bounds of the wait: of the rounds and of the turns after which all live boards know all dead ones, by wiring, size and table; all 0 where it is
// refused.
#[tactic(auto, using(crate::proofs::OnWiring::on_each))]
#[unsafe(no_mangle)]
pub extern "C" fn vcube_wait(
    wiring: usize,
    n: usize,
    table: &[u8],
    rounds: &mut usize,
    turns_per_round: &mut usize,
    turns_until_known: &mut usize,
    turns_from_crash: &mut usize,
) -> u8
    ensures number { result
        ≡ on_wiring wiring no_such_wiring (λ w. number_of_result (wait_answer w n table.now)) }
    ensures wait_after { wait_out rounds.new turns_per_round.new turns_until_known.new
        turns_from_crash.new ≡ on_wiring wiring (wait_out 0 0 0 0) (λ w. wait_figures w n table.now) }
{
    let Ok(wiring) = Wiring::try_from(wiring) else {
        *rounds = 0;
        *turns_per_round = 0;
        *turns_until_known = 0;
        *turns_from_crash = 0;
        return NO_SUCH_WIRING;
    };
    let (number, wait) = parts(wait::wait_of(wiring, n, table), Wait::default());
    *rounds = wait.rounds as usize;
    *turns_per_round = wait.turns_per_round as usize;
    *turns_until_known = wait.turns_until_known as usize;
    *turns_from_crash = wait.turns_from_crash as usize;
    number
}

// One dead board under a bus master, with nobody dead before: after how many rounds and grants it is known everywhere, into rounds and grants; both 0
// where it is refused, and at a size for which nothing is proved.
#[tactic(auto, using(crate::proofs::OnWiring::on_each))]
#[unsafe(no_mangle)]
pub extern "C" fn vcube_one_dead(
    wiring: usize,
    n: usize,
    rounds: &mut usize,
    grants: &mut usize,
) -> u8
    ensures number { result
        ≡ on_wiring wiring no_such_wiring (λ w. number_of_result (one_dead_answer w n)) }
    ensures bounds_after { one_dead_out rounds.new grants.new
        ≡ on_wiring wiring (one_dead_out 0 0) (λ w. one_dead_figures w n) }
{
    let Ok(wiring) = Wiring::try_from(wiring) else {
        *rounds = 0;
        *grants = 0;
        return NO_SUCH_WIRING;
    };
    let (number, known) = parts(bounds::one_dead(wiring, n), None);
    let known = known.unwrap_or_default();
    *rounds = known.rounds as usize;
    *grants = known.grants as usize;
    number
}

// Words of the refusal with a number: what it says to people, and zeros behind it.
#[unsafe(no_mangle)]
pub extern "C" fn vcube_refusal_words(refusal: usize, words: &mut [u8]) -> u8
    ensures number { result ≡ number_of_result (words_check (length words.old)) }
    ensures words_written { words.new ≡ words_after (words_of_refusal refusal) words.old }
{
    match Refusal::with_number(refusal) {
        Some(refusal) => write_words(refusal.words(), words),
        None => write_words("", words),
    }
}

// Words of the status with a number.
#[tactic(auto, using(crate::proofs::Narrow::status_narrow))]
#[unsafe(no_mangle)]
pub extern "C" fn vcube_status_words(status: usize, words: &mut [u8]) -> u8
    ensures number { result ≡ number_of_result (words_check (length words.old)) }
    ensures words_written { words.new ≡ words_after (words_of_status status) words.old }
{
    match Status::try_from(byte_of(status)) {
        Ok(status) => write_words(status.words(), words),
        Err(_) => write_words("", words),
    }
}

// Words of the outcome with a number.
#[unsafe(no_mangle)]
pub extern "C" fn vcube_outcome_words(outcome: usize, words: &mut [u8]) -> u8
    ensures number { result ≡ number_of_result (words_check (length words.old)) }
    ensures words_written { words.new ≡ words_after (words_of_outcome outcome) words.old }
{
    match Outcome::with_number(outcome, Station(0)) {
        Some(outcome) => write_words(outcome.words(), words),
        None => write_words("", words),
    }
}

// Input: reads an input of the run program. The entries before the first unreadable line go to the front of the schedule; their number, the size
// and the number of that line, 0 where all can be read, into entries, n and line; and what is wrong in it into words. All three numbers are 0 where
// the call is refused.
#[unsafe(no_mangle)]
pub extern "C" fn vcube_read_input(
    input: &[u8],
    schedule: &mut [u8],
    words: &mut [u8],
    n: &mut usize,
    entries: &mut usize,
    line: &mut usize,
) -> u8
    ensures number { result
        ≡ number_of_result (input_check (length schedule.old) (length words.old)) }
    ensures figures_after { input_out n.new entries.new line.new
        ≡ input_figures (length schedule.old) (length words.old) (read_input input.now) }
    ensures schedule_written { schedule.new
        ≡ schedule_after (length words.old) schedule.old (read_input input.now) }
    ensures words_written { words.new
        ≡ input_words_after (length schedule.old) words.old input.now }
    ensures words_fit { InputWordsFit (length schedule.old) (length words.old) input.now }
{
    match check_input(schedule.len(), words.len()) {
        Ok(()) => {
            let (before, unread) = read_input(input, schedule, words);
            *n = before.size;
            *entries = before.entries;
            *line = unread;
            0
        }
        Err(refusal) => {
            *n = 0;
            *entries = 0;
            *line = 0;
            refusal.number()
        }
    }
}

// Refusal 13 of an input's schedule and of its buffer for words, by their lengths.
fn check_input(schedule: usize, words: usize) -> Result<(), Refusal>
    ensures { result ≡ input_check schedule words }
{
    if schedule != SCHEDULE_LENGTH {
        return Err(Refusal::ListLength);
    }
    if words != WORDS_LENGTH {
        return Err(Refusal::ListLength);
    }
    Ok(())
}

// Reads an input into a schedule and a buffer of the right lengths: what was read, and the number of the first unreadable line, 0 where all can be.
#[tactic(auto, using(crate::proofs::InputLaws::input_laws))]
fn read_input(input: &[u8], schedule: &mut [u8], words: &mut [u8]) -> (Parsed, usize)
    requires schedule { length schedule.old ≡ schedule_length }
    requires words { length words.old ≡ words_length }
    ensures figures { let r = read_input input.now in
        input_out result.0.size result.0.entries result.1 ≡ input_out r.size r.entries r.unread }
    ensures schedule_written { schedule.new
        ≡ sets schedule.old 0 (read_input input.now).schedule }
    ensures words_written { words.new ≡ worded (words_of_input input.now (read_input input.now)) }
    ensures words_fit { length (words_of_input input.now (read_input input.now)) < words_length }
{
    words.fill(0);
    match reading::parse(input, schedule) {
        Ok(parsed) => (parsed, 0),
        Err(unread) => {
            unread.fault.write_words(words);
            (unread.before, unread.line)
        }
    }
}

// How many bytes a schedule with room for all entries of an input has, and a buffer for words.
const SCHEDULE_LENGTH: usize = 8192;

const WORDS_LENGTH: usize = 128;

// Writes words into a lent buffer, and zeros behind them.
fn write_words(text: &str, words: &mut [u8]) -> u8
    ensures number { result ≡ number_of_result (words_check (length words.old)) }
    ensures words_written { words.new ≡ words_after text.now words.old }
{
    if words.len() != WORDS_LENGTH {
        return Refusal::ListLength.number();
    }
    words.fill(0);
    bytes::write_at(words, 0, text.as_bytes());
    0
}

// The members of a struct of figures, in their order. No `From`, here and in the next two: the order of the members is the C header's, and neither
// an array nor `Figures` or `Totals` is a type of this crate.
fn figures_members(f: Figures) -> [u64; 7]
    ensures { result ≡ figures_members f }
{
    let mean = f.mean;
    let variance = f.variance;
    [
        f.count,
        f.least,
        f.greatest,
        mean.upper,
        mean.lower,
        variance.upper,
        variance.lower,
    ]
}

// The members of a struct of totals, in their order.
fn totals_members(t: Totals) -> [u64; 5]
    ensures { result ≡ totals_members t }
{
    [t.count, t.sum, t.squares, t.least, t.greatest]
}

// The totals with these members.
fn totals_with(members: &[u64; 5]) -> Totals
    ensures { result ≡ totals_with members.now }
{
    Totals {
        count: members[0],
        sum: members[1],
        squares: members[2],
        least: members[3],
        greatest: members[4],
    }
}

// A number as a byte, 255 for all that are greater. There is no station, level or status 255, so a greater one is answered as that one is.
fn byte_of(x: usize) -> u8
    ensures { result ≡ min x 255 }
{
    u8::try_from(x).unwrap_or(255)
}
