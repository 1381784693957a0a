//! Laws of the frames of a desk, and of what a look tells.
ghost use Rattle.wm_core.specs.Laws.{ContentsAreShown, EndsTwiceAtMost, FramesGoOn, OpenAreWindows, SecondAwaitsNobody, ShowsItsAnswer, ShowsOnlyConfigured};
ghost use Rattle.wm_core.specs.Order.{MarksAreAll, MarksRise, WindowsAreAll, WindowsAreOnce, WindowsRise};

/// With one more step neither the number of the frame falls, nor how many steps its arrangement stands for.
#[tactic(auto, using(crate::proofs::LawLemmas::frames_go_on))]
pub fn frames_go_on()
    ensures { FramesGoOn }
{}

/// From any opening, a window in the frame has the size that was asked of it last, and shows its buffer for that, unless a
/// deadline or its closing came first; one that no transaction has configured shows what it had at the opening.
pub fn a_window_shows_its_answer()
    ensures { ShowsItsAnswer }
{}

/// From the opening of a plan, each window in the frame shows what was asked of it.
#[tactic(auto, using(crate::proofs::LawLemmas::shows_only_configured))]
pub fn a_window_shows_its_configured_size()
    ensures { ShowsOnlyConfigured }
{}

/// Each window in the frame has a buffer to show.
pub fn each_window_in_the_frame_is_shown()
    ensures { ContentsAreShown }
{}

/// At most two transactions end at one step.
#[tactic(auto, using(crate::proofs::LawLemmas::ends_twice_at_most))]
pub fn at_most_two_end()
    ensures { EndsTwiceAtMost }
{}

/// The second transaction that ends at one step awaits nobody.
#[tactic(auto, using(crate::proofs::LawLemmas::second_awaits_nobody))]
pub fn the_second_awaits_nobody()
    ensures { SecondAwaitsNobody }
{}

/// The windows that are open for the transactions are those of the tree.
#[tactic(auto, using(crate::proofs::LawLemmas::open_are_windows))]
pub fn open_windows_are_those_of_the_tree()
    ensures { OpenAreWindows }
{}

/// The marks that a look tells stand in byte order, and each is there as often as on the nodes of the tree.
#[tactic(auto, using(crate::proofs::OrderLemmas::marks_rise, crate::proofs::OrderLemmas::marks_are_all))]
pub fn marks_are_in_order()
    ensures rise { MarksRise }
    ensures all { MarksAreAll }
{}

/// The windows of a caller stand by rising id, each as often as in the order of recency, and nothing else stands there;
/// in a sound tree each of them stands there once.
#[tactic(auto, using(crate::proofs::OrderLemmas::windows_rise, crate::proofs::OrderLemmas::windows_are_all, crate::proofs::OrderLemmas::windows_are_once))]
pub fn windows_are_in_order()
    ensures rise { WindowsRise }
    ensures all { WindowsAreAll }
    ensures once { WindowsAreOnce }
{}
