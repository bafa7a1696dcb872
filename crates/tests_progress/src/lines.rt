//! The line of a run's progress, and when it is drawn.

use nf_progress::{Board, Counts, Screen, Step, is_due};
use nf_value::{Mem, Txt};
use std::alloc::Global;
use std::test::Fail;
use std::time::Instant;

fn txt(alloc: Global, text: &str) -> Result<Txt, Mem> {
    Ok(Txt::of(String::from_str(alloc, text)?))
}

/// A board of two processes: a task of the first is done and another runs, and one of the second is cached.
fn begun(alloc: Global) -> Result<Board, Mem> {
    let mut board = Board::new(alloc);
    board.add(txt(alloc, "ALIGN")?)?;
    board.add(txt(alloc, "COUNT")?)?;
    board.told(0, Step::Begun);
    board.told(0, Step::Begun);
    board.told(0, Step::Done);
    board.told(1, Step::Begun);
    board.told(1, Step::Cached);
    Ok(board)
}

#[test]
fn a_line_says_how_far_tasks_are(rt: HostRuntime) -> Result<(), Fail> {
    let alloc = rt.alloc();
    let board = begun(alloc)?;
    let line = board.line(alloc)?;
    assert_eq!(rt;
        line.as_str(),
        "ALIGN: 1 done, 0 cached, 1 running. COUNT: 0 done, 1 cached, 0 running. "
    );
    Ok(())
}

#[test]
fn a_process_without_room_is_left_out(rt: HostRuntime) -> Result<(), Fail> {
    let alloc = rt.alloc();
    let mut board = begun(alloc)?;
    board.add(txt(alloc, "SUM")?)?;
    let line = board.line(alloc)?;
    assert_eq!(rt; line.len(), 72);
    Ok(())
}

#[test]
fn a_task_that_is_given_up_runs_no_more(rt: HostRuntime) -> Result<(), Fail> {
    let counts = Counts::NONE.after(Step::Begun).after(Step::Lost);
    assert_eq!(rt; counts, Counts::NONE);
    Ok(())
}

#[test]
fn a_line_is_drawn_at_most_ten_times_a_second(rt: HostRuntime) -> Result<(), Fail> {
    let now = Instant::now(&rt)?;
    assert!(rt; is_due(None, now));
    assert!(rt; !is_due(Some(now), now));
    Ok(())
}

#[test]
fn a_process_is_found_by_its_name(rt: HostRuntime) -> Result<(), Fail> {
    let board = begun(rt.alloc())?;
    assert_eq!(rt; board.place_of("COUNT"), Some(1));
    assert_eq!(rt; board.place_of("SUM"), None);
    Ok(())
}

#[test]
fn a_screen_is_told_of_steps_until_it_is_closed(rt: HostRuntime) -> Result<(), Fail> {
    let alloc = rt.alloc();
    let mut screen = Screen::new(alloc);
    let process = txt(alloc, "ALIGN")?;
    screen.told(&rt, &process, &[Step::Begun]);
    screen.told(&rt, &process, &[Step::Done, Step::Begun]);
    screen.close(&rt);
    screen.told(&rt, &process, &[Step::Lost]);
    let line = screen.board().line(alloc)?;
    assert_eq!(rt; line.as_str(), "ALIGN: 1 done, 0 cached, 1 running. ");
    Ok(())
}
