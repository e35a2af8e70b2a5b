ghost use Rattle.std.specs.Prelude.{◌≡◌, ℕ, ◌≤◌, [], length, take, IfOk, Some, vec_capacity, MatchResult};
ghost use Rattle.runs.specs.Purse.{Stocked};
ghost use Rattle.runs.specs.Running.{first, after as book-after, asked, Ready, Performed, Replays};
ghost use Rattle.runs.specs.Comparing.{SameButTautologies, listed_count};

use crate::run::{Answer, Purse, Run, Start, Unstarted};
use evaluator::answer::EvaluatorFault;
use evaluator::outcomes::outcomes;
use kiosk::call::Call;
use kiosk::kiosk::Kiosk;
use laying::open_rack::OpenRack;
use orders::order::Order;
use racks::rack::Rack;
use std::alloc::{AllocError, Global};

// Sets a kiosk up on a rack, makes the calls in order and lists at the end.
pub fn replay<R: OpenRack, O: Order>(
    heap: Global,
    start: Start<R>,
    calls: &[Call],
    order: &O,
    places: usize,
    list: &mut [u16],
) -> Result<(Run<R>, Result<usize, EvaluatorFault>), Unstarted<R>>
    ensures { Replays R.OpenRack.state (O.Order.over order.now) places start calls.now list.old list.new result }
{
    let run = perform_all(heap, start, calls, order, places)?;
    let counted = outcomes(&run.kiosk, order, list);
    Ok((run, counted))
}

// The same on two racks of any two types, under one order. Where the books at the end differ only in tautologies, the lists are the same.
pub fn replay_two<R: OpenRack, S: OpenRack, O: Order>(
    heap: Global,
    starts: (Start<R>, Start<S>),
    calls: (&[Call], &[Call]),
    order: &O,
    places: usize,
    list: &mut [u16],
    other_list: &mut [u16],
) -> (
    Result<(Run<R>, Result<usize, EvaluatorFault>), Unstarted<R>>,
    Result<(Run<S>, Result<usize, EvaluatorFault>), Unstarted<S>>,
)
    ensures one { Replays R.OpenRack.state (O.Order.over order.now) places starts.0 calls.entry.0.now list.old list.new result.0 }
    ensures other { Replays S.OpenRack.state (O.Order.over order.now) places starts.1 calls.entry.1.now other_list.old other_list.new result.1 }
    ensures same { (k j : ℕ) → listed_count result.0 ≡ Some k → listed_count result.1 ≡ Some j → SameButTautologies (book-after (first R.OpenRack.state starts.0.rack) calls.entry.0.now) (book-after (first S.OpenRack.state starts.1.rack) calls.entry.1.now) → take k list.new ≡ take j other_list.new }
{
    let (start, other_start) = starts;
    let (calls, other_calls) = calls;
    let one = replay(heap, start, calls, order, places, list);
    let other = replay(heap, other_start, other_calls, order, places, other_list);
    (one, other)
}

// Sets a kiosk up and makes the calls.
fn perform_all<R: OpenRack, O: Order>(
    heap: Global,
    start: Start<R>,
    calls: &[Call],
    order: &O,
    places: usize,
) -> Result<Run<R>, Unstarted<R>>
    ensures { MatchResult result (λ k. Performed R.OpenRack.state (O.Order.over order.now) places start.rack calls.now k) (λ e. e.start ≡ start) }
{
    let mut run = set_up(heap, start, calls, places)?;
    for call in calls {
        let (purse, answer) = run
            .purse
            .perform(&mut run.kiosk, &mut run.lists, *call, order);
        run.purse = purse;
        run.answers.push_reserved(answer);
    }
    Ok(run)
}

// A run with no call made yet.
fn set_up<R: OpenRack>(
    heap: Global,
    start: Start<R>,
    calls: &[Call],
    places: usize,
) -> Result<Run<R>, Unstarted<R>>
    ensures { MatchResult result (λ k. Ready R.OpenRack.state places start.rack calls.now k) (λ e. e.start ≡ start) }
{
    match room(heap, calls, places) {
        Ok((answers, lists)) => {
            let Start { rack, reserve } = start;
            Ok(Run {
                kiosk: Kiosk::new(rack),
                answers,
                purse: Purse::new(reserve),
                places,
                lists,
            })
        }
        Err(error) => Err(Unstarted { start, error }),
    }
}

// Room for the answers to the calls, and the blank lists that they need: made at once, so that no call can fail for want of memory.
fn room(
    heap: Global,
    calls: &[Call],
    places: usize,
) -> Result<(Vec<Answer>, Vec<Vec<u16>>), AllocError>
    ensures empty { IfOk result (λ r. r.0.items ≡ []) }
    ensures room { IfOk result (λ r. length calls.now ≤ vec_capacity r.0) }
    ensures stock { IfOk result (λ r. Stocked places (asked calls.now) r.1) }
{
    let answers = Vec::with_capacity(heap, calls.len())?;
    let lists = blank_lists(heap, listings(calls), places)?;
    Ok((answers, lists))
}

// How many lists the calls need.
fn listings(calls: &[Call]) -> usize
    ensures { result ≡ asked calls.now }
{
    calls
        .iter()
        .filter(|call| matches!(call, Call::Outcomes))
        .count()
}

// So many lists of so many places that hold zero.
fn blank_lists(heap: Global, count: usize, places: usize) -> Result<Vec<Vec<u16>>, AllocError>
    ensures { IfOk result (λ v. Stocked places count v) }
{
    let mut lists = Vec::with_capacity(heap, count)?;
    for _ in 0..count {
        lists.push_reserved(vec![in heap; 0; places]?);
    }
    Ok(lists)
}
