// What follows a unit, by its kind: the next state, or why the unit is refused.
#![tactic(auto)]

ghost use Rattle.std.specs.Prelude.{◌≡◌, cond, Ok, Err};
ghost use Rattle.layout.specs.Reader.{all_zero};
ghost use Rattle.layout.specs.declared.Fault.TheVariants.{Short};
ghost use Rattle.grammar.specs.declared.Reason.TheVariants.{Body};
ghost use Rattle.bodies.specs.Reader.{extension_result};
ghost use Rattle.grammar.specs.Reader.{by, header_step, head_extension, picture_step, slice_step, ending_step};

use bodies::Scope;
use grammar::{Reason, SliceRule, State};
use layout::Fault;

// A sequence header begins a group's head, with the rule for its slices and no display extension yet.
pub fn header_step(body: &[u8]) -> Result<State, Reason>
    ensures { result ≡ header_step body.now }
{
    let header = bodies::sequence_header(body).map_err(Reason::Body)?;
    let rule = SliceRule {
        tested: macroblocks::slices_tested(header),
        rows: macroblocks::macroblock_rows(header),
    };
    Ok(State::Head(rule, false))
}

// An extension whose body is read goes on in the state next.
pub fn extension_step(body: &[u8], scope: Scope, next: State) -> Result<State, Reason>
    ensures { result ≡ by (extension_result scope body.now) (λ x. next) }
{
    bodies::extension(body, scope).map_err(Reason::Body)?;
    Ok(next)
}

// SHORT, then TWICE, then the fields of a display extension.
#[tactic(auto, using(crate::proofs::StepLaws::head_display))]
pub fn head_extension(rule: SliceRule, display: bool, body: &[u8]) -> Result<State, Reason>
    ensures { result ≡ head_extension rule display body.now }
{
    if !bodies::is_display(body) {
        return extension_step(body, Scope::Head, State::Head(rule, display));
    }
    if bodies::display_short(body) {
        return Err(Reason::Body(Fault::Short));
    }
    if display {
        return Err(Reason::Twice);
    }
    extension_step(body, Scope::Head, State::Head(rule, true))
}

// The body of a picture header or a slice holds a nonzero byte, otherwise SHORT.
fn nonzero(body: &[u8]) -> Result<(), Reason>
    ensures { result ≡ cond (all_zero body.now) (Err (Body Short)) (Ok tt) }
{
    if layout::all_zero(body) {
        return Err(Reason::Body(Fault::Short));
    }
    Ok(())
}

// A picture header, which is opaque, but holds a nonzero byte.
pub fn picture_step(rule: SliceRule, body: &[u8]) -> Result<State, Reason>
    ensures { result ≡ picture_step rule body.now }
{
    nonzero(body)?;
    Ok(State::Picture(rule))
}

// A slice, which is opaque, but holds a nonzero byte. Its order is tested before its row.
pub fn slice_step(rule: SliceRule, least: u32, code: u8, body: &[u8]) -> Result<State, Reason>
    ensures { result ≡ slice_step rule least (record { code = code; body = body.now }) }
{
    nonzero(body)?;
    let number = u32::from(code);
    if !rule.tested {
        return Ok(State::Slices(rule, number + 1));
    }
    if number < least {
        return Err(Reason::SliceOrder);
    }
    if rule.rows <= number {
        return Err(Reason::SliceRow);
    }
    Ok(State::Slices(rule, number + 1))
}

// An ending, whose body is empty.
pub fn ending_step(body: &[u8], next: State) -> Result<State, Reason>
    ensures { result ≡ ending_step body.now next }
{
    if body.len() != 0 {
        return Err(Reason::Body(Fault::Stuffing));
    }
    Ok(next)
}
