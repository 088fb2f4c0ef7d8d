//! The document around the shapes.

ghost use Rattle.std.specs.Prelude.{◌≡◌, ◌++◌, OnOk};
ghost use Rattle.ncc_picture.specs.Pictures.{all_styles, before_shapes, closing, colours, ground, hatches, hatching, legend, more_colours, opening, places_style, records_style, sized, style, view_box};

use crate::marks::push_attribute;
use ncc_places::push_wide;
use std::alloc::AllocError;

/// What stands before the height.
#[tactic(auto, unfolding(crate::specs::Pictures::opening))]
fn opening() -> &'static [u8]
    ensures { result.now ≡ opening }
{
    b"<svg xmlns=\"http://www.w3.org/2000/svg\" width=\"1080\""
}

/// What stands between the height and its second mention.
#[tactic(auto, unfolding(crate::specs::Pictures::view_box))]
fn view_box() -> &'static [u8]
    ensures { result.now ≡ view_box }
{
    b" viewBox=\"0 0 1080 "
}

/// How shapes and texts look.
#[tactic(auto, unfolding(crate::specs::Pictures::style))]
fn style() -> &'static [u8]
    ensures { result.now ≡ style }
{
    b"<style>text{font:12px monospace}rect{stroke:#000;stroke-width:.3}\n"
}

/// White for what no variable has, grey for the header and for what follows all.
#[tactic(auto, unfolding(crate::specs::Pictures::places_style))]
fn places_style() -> &'static [u8]
    ensures { result.now ≡ places_style }
{
    b".gap{fill:#fff}.header{fill:#555}.after{fill:#ddd}.bad{fill:url(#bad);stroke:#c00}\n"
}

/// The records, and where each begins.
#[tactic(auto, unfolding(crate::specs::Pictures::records_style))]
fn records_style() -> &'static [u8]
    ensures { result.now ≡ records_style }
{
    b".records{fill:#cfdbe8}.cut{fill:#333;stroke:none}\n"
}

/// Nine colours of variables, and one of those without a line of their own.
#[tactic(auto, unfolding(crate::specs::Pictures::colours))]
fn colours() -> &'static [u8]
    ensures { result.now ≡ colours }
{
    b".c0{fill:#88ccee}.c1{fill:#117733}.c2{fill:#ddcc77}.c3{fill:#882255}.c4{fill:#44aa99}\n"
}

/// The rest of it.
#[tactic(auto, unfolding(crate::specs::Pictures::more_colours))]
fn more_colours() -> &'static [u8]
    ensures { result.now ≡ more_colours }
{
    b".c5{fill:#cc6677}.c6{fill:#332288}.c7{fill:#999933}.c8{fill:#aa4499}.c9{fill:#aaa}</style>\n"
}

/// Red lines, for what is shared or missing.
#[tactic(auto, unfolding(crate::specs::Pictures::hatching))]
fn hatching() -> &'static [u8]
    ensures { result.now ≡ hatching }
{
    b"<defs><pattern id=\"bad\" width=\"6\" height=\"6\" patternUnits=\"userSpaceOnUse\" patternTransform=\"rotate(45)\">\n"
}

/// The rest of it.
#[tactic(auto, unfolding(crate::specs::Pictures::hatches))]
fn hatches() -> &'static [u8]
    ensures { result.now ≡ hatches }
{
    b"<path d=\"M0 0H6V6H0Z\" fill=\"#fff\" fill-opacity=\".5\"/><path d=\"M1.5 0V6\" stroke=\"#c00\" stroke-width=\"3\"/></pattern></defs>\n"
}

/// A white ground, and a margin at the left.
#[tactic(auto, unfolding(crate::specs::Pictures::ground))]
fn ground() -> &'static [u8]
    ensures { result.now ≡ ground }
{
    b"<path d=\"M0 0H1080V99999H0Z\" fill=\"#fff\"/>\n<g transform=\"translate(20 0)\">\n"
}

/// What a reader must know of the colours.
#[tactic(auto, unfolding(crate::specs::Pictures::legend))]
fn legend() -> &'static [u8]
    ensures { result.now ≡ legend }
{
    b"<text x=\"1000\" y=\"22\" text-anchor=\"end\">white: a gap; pale grey: after all; hatched red: shared, or missing</text>\n"
}

/// What stands after the shapes.
#[tactic(auto, unfolding(crate::specs::Pictures::closing))]
pub fn closing() -> &'static [u8]
    ensures { result.now ≡ closing }
{
    b"</g>\n</svg>\n"
}

/// Adds how high the picture is.
#[tactic(auto, unfolding(crate::specs::Pictures::sized))]
fn push_sized(out: &mut Vec<u8>, height: u128) -> Result<(), AllocError>
    ensures { OnOk result (out.new.items ≡ out.old.items ++ sized height) }
{
    out.extend_from_slice(opening())?;
    push_attribute(out, b" height", height)?;
    out.extend_from_slice(view_box())?;
    push_wide(out, height)?;
    out.extend_from_slice(b"\">\n")?;
    Ok(())
}

/// Adds how all shapes look.
#[tactic(auto, unfolding(crate::specs::Pictures::all_styles))]
fn push_styles(out: &mut Vec<u8>) -> Result<(), AllocError>
    ensures { OnOk result (out.new.items ≡ out.old.items ++ all_styles) }
{
    out.extend_from_slice(style())?;
    out.extend_from_slice(places_style())?;
    out.extend_from_slice(records_style())?;
    out.extend_from_slice(colours())?;
    out.extend_from_slice(more_colours())?;
    Ok(())
}

/// Adds what stands before the shapes.
#[tactic(auto, unfolding(crate::specs::Pictures::before_shapes))]
pub fn push_before_shapes(out: &mut Vec<u8>, height: u128) -> Result<(), AllocError>
    ensures { OnOk result (out.new.items ≡ out.old.items ++ before_shapes height) }
{
    push_sized(out, height)?;
    push_styles(out)?;
    out.extend_from_slice(hatching())?;
    out.extend_from_slice(hatches())?;
    out.extend_from_slice(ground())?;
    out.extend_from_slice(legend())?;
    Ok(())
}
