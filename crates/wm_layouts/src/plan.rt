//! The plan with which a desk is started.
ghost use Rattle.std.specs.Prelude.{◌≡◌, ◌↔◌, IsTrue, IfOk};
ghost use Rattle.wm_layouts.specs.Plan.{FitLayouts, FitOutputs, IsSound, IsFitBorder, IsFitEdges, IsFitOutput, IsStandard, NamesDiffer, is_fit_place, is_fit_rect, is_fit_size, is_taken};

use std::alloc::Global;
use wm_base::{Border, Edges, List, NoMemory, OutputPlan, Rect, Str, Text};
use wm_saved::SavedLayout;

/// How many outputs a plan has at most.
const MAX_OUTPUTS: usize = 8;

/// What commands find beside the tree: the binding modes other than `default`, saved layouts by their name, of which the
/// first of a name counts, and for workspaces by their name the output on which each is made.
#[derive(Debug, Drop)]
pub struct Env {
    pub modes: List<Text>,
    pub layouts: List<(Text, SavedLayout)>,
    pub homes: List<(Text, Text)>,
}

/// The outputs, the default border of containers, the default gaps of workspaces in pixels, what commands find beside
/// the tree, and the text of the configuration.
#[derive(Debug, Drop)]
pub struct Plan {
    pub outputs: List<OutputPlan>,
    pub border: Border,
    pub inner: u32,
    pub outer: u32,
    pub env: Env,
    pub config: Str,
}

impl Plan {
    /// The plan of one output DP-1 of 1000x800 at 0,0, with no borders, no gaps, no modes, no layouts, no homes and no configuration.
    pub fn standard(alloc: Global) -> Result<Plan, NoMemory>
        ensures standard { IfOk result (λ plan. IsStandard plan) }
        ensures sound { IfOk result (λ plan. IsSound plan) }
    {
        let Ok(name) = Text::new(alloc, "DP-1") else {
            return Err(NoMemory);
        };
        let output = OutputPlan {
            name,
            rect: Rect {
                x: 0,
                y: 0,
                w: 1000,
                h: 800,
            },
            reserved: Edges {
                top: 0,
                right: 0,
                bottom: 0,
                left: 0,
            },
        };
        let outputs = vec![in alloc; output]?;
        Ok(Plan {
            outputs: List::of(outputs),
            border: Border::Bare,
            inner: 0,
            outer: 0,
            env: Env {
                modes: List::of(Vec::new(alloc)),
                layouts: List::of(Vec::new(alloc)),
                homes: List::of(Vec::new(alloc)),
            },
            config: Str::of(String::new(alloc)),
        })
    }

    /// Whether the limits hold: 1 to 8 outputs with names of their own, whose sides are 1 to 16,384 pixels with an
    /// area of at most 33,554,432, places from -131,072 to 131,071, reserved edges of at most 16,384, a border of at
    /// most 64, gaps of at most 1,000, and layouts whose borders and marks are within their limits.
    pub fn sound(&self) -> bool
        ensures { IsTrue result ↔ IsSound self.now }
    {
        let outputs = self.outputs.items();
        1 <= outputs.len()
            && outputs.len() <= MAX_OUTPUTS
            && are_fit(outputs)
            && do_names_differ(outputs)
            && is_fit_border(self.border)
            && self.inner <= 1000
            && self.outer <= 1000
            && are_fit_layouts(self.env.layouts.items())
    }
}

/// Whether each output is within its limits.
fn are_fit(outputs: &[OutputPlan]) -> bool
    ensures { IsTrue result ↔ FitOutputs outputs.now }
{
    match outputs {
        [] => true,
        [first, rest @ ..] => is_fit_output(first) && are_fit(rest),
    }
}

/// Whether the borders and marks of each layout are within their limits.
fn are_fit_layouts(layouts: &[(Text, SavedLayout)]) -> bool
    ensures { IsTrue result ↔ FitLayouts layouts.now }
{
    match layouts {
        [] => true,
        [first, rest @ ..] => first.1.is_fit() && are_fit_layouts(rest),
    }
}

/// Whether no two outputs have one name.
fn do_names_differ(outputs: &[OutputPlan]) -> bool
    ensures { IsTrue result ↔ NamesDiffer outputs.now }
{
    match outputs {
        [] => true,
        [first, rest @ ..] => !is_taken(rest, first.name.as_str()) && do_names_differ(rest),
    }
}

/// Whether one of the outputs has the name.
fn is_taken(outputs: &[OutputPlan], name: &str) -> bool
    ensures { result ≡ is_taken name.now outputs.now }
{
    match outputs {
        [] => false,
        [first, rest @ ..] => first.name.as_str() == name || is_taken(rest, name),
    }
}

fn is_fit_output(output: &OutputPlan) -> bool
    ensures { IsTrue result ↔ IsFitOutput output.now }
{
    is_fit_rect(output.rect) && are_fit_edges(output.reserved)
}

/// Whether an output may have this rectangle: a place from -131,072 to 131,071, sides of 1 to 16,384 pixels, and an area
/// of at most 33,554,432.
pub fn is_fit_rect(rect: Rect) -> bool
    ensures { result ≡ is_fit_rect rect }
{
    is_fit_place(rect) && is_fit_size(rect)
}

fn is_fit_place(rect: Rect) -> bool
    ensures { result ≡ is_fit_place rect }
{
    -131_072 <= rect.x && rect.x <= 131_071 && -131_072 <= rect.y && rect.y <= 131_071
}

fn is_fit_size(rect: Rect) -> bool
    ensures { result ≡ is_fit_size rect }
{
    1 <= rect.w
        && rect.w <= 16384
        && 1 <= rect.h
        && rect.h <= 16384
        && rect.w * rect.h <= 33_554_432
}

/// Whether the edges may be reserved: each is at most 16,384 pixels.
fn are_fit_edges(edges: Edges) -> bool
    ensures { IsTrue result ↔ IsFitEdges edges }
{
    edges.top <= 16384 && edges.right <= 16384 && edges.bottom <= 16384 && edges.left <= 16384
}

fn is_fit_border(border: Border) -> bool
    ensures { IsTrue result ↔ IsFitBorder border }
{
    match border {
        Border::Normal(width) | Border::Pixel(width) => width <= 64,
        Border::Bare => true,
    }
}
