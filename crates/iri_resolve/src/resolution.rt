//! Resolution of a reference against a base.

ghost use Rattle.std.specs.Prelude.{◌≡◌, ◌↔◌, ◌++◌, IfOk, OnOk, IsSome, IsNone, IsErrOf, IsOkUnless, string_bytes};
ghost use Rattle.std.specs.Option.{option_copied, option_or};
ghost use Rattle.iri_resolve.specs.Reference.{components_lent, scheme_of};
ghost use Rattle.iri_resolve.specs.Resolution.{with_mark_before, text_of, resolved_text, target, components_held};
ghost use Rattle.iri_resolve.specs.declared.resolution.IriError.TheVariants.{Memory};

use crate::parts::{Parts, split};
use crate::path::{merge, remove_dot_segments};
use std::alloc::{AllocError, Global};
use thiserror::Error;

/// Why a reference is not resolved.
#[derive(Clone, Copy, Debug, PartialEq, Eq, Error)]
pub enum IriError {
    /// Neither the base nor the reference has a scheme.
    #[error("NoScheme")]
    NoScheme,
    /// Memory ran out.
    #[error("Memory")]
    Memory,
}

impl From<AllocError> for IriError {
    ghost from_gives = { λ _ e. e ≡ Memory };

    fn from(_error: AllocError) -> IriError {
        IriError::Memory
    }
}

/// The text that `reference` stands for in a document with the base `base` (RFC 3986 sections 5.2
/// and 5.3). A reference that has a scheme is taken as written; nothing is normalised otherwise.
/// Fails with `NoScheme` where neither text has a scheme.
pub fn resolve(alloc: Global, base: &str, reference: &str) -> Result<String, IriError>
    ensures text { IfOk result (λ t. string_bytes t ≡ resolved_text base.now reference.now) }

    ensures no_scheme { IsErrOf result IriError.NoScheme
        ↔ (IsNone (scheme_of base.now) × IsNone (scheme_of reference.now)) }
    ensures ok_by_base { IsSome (scheme_of base.now) → IsOkUnless result IriError.Memory }
    ensures ok_by_reference { IsSome (scheme_of reference.now) → IsOkUnless result IriError.Memory }

    ensures as_written { IsSome (scheme_of reference.now)
        → IfOk result (λ t. string_bytes t ≡ reference.now) }
    ensures scheme { IfOk result (λ t. scheme_of (string_bytes t)
        ≡ option_or (scheme_of reference.now) (scheme_of base.now)) }
{
    let reference_parts = split(reference);
    if reference_parts.scheme.is_some() {
        return Ok(String::from_str(alloc, reference)?);
    }
    let base_parts = split(base);
    if base_parts.scheme.is_none() {
        return Err(IriError::NoScheme);
    }
    let path = target_path(alloc, &base_parts, &reference_parts)?;
    let target = Target::new(&base_parts, &reference_parts, path);
    Ok(target.recompose(alloc)?)
}

/// The path of the target of a reference without a scheme (RFC 3986 section 5.2.2).
fn target_path(alloc: Global, base: &Parts, reference: &Parts) -> Result<String, AllocError>
    requires { IsNone reference.now.scheme }
    ensures { IfOk result (λ t. string_bytes t
        ≡ (target (components_lent base.now) (components_lent reference.now)).path) }
{
    if reference.authority.is_some() || reference.path.starts_with('/') {
        return remove_dot_segments(alloc, reference.path);
    }
    if reference.path.is_empty() {
        return String::from_str(alloc, base.path);
    }
    let path = merge(alloc, base, reference.path)?;
    remove_dot_segments(alloc, path.as_str())
}

/// The components of a target (RFC 3986 section 5.2.2). Its path may stand in neither text, so it is
/// owned.
#[derive(Drop)]
struct Target<'a> {
    scheme: Option<&'a str>,
    authority: Option<&'a str>,
    path: String,
    query: Option<&'a str>,
    fragment: Option<&'a str>,
}

impl<'a> Target<'a> {
    // The target of a reference without a scheme, given its path.
    fn new(base: &Parts<'a>, reference: &Parts<'a>, path: String) -> Target<'a>
        requires none { IsNone reference.now.scheme }
        requires path { string_bytes path
            ≡ (target (components_lent base.now) (components_lent reference.now)).path }
        ensures { components_held result
            ≡ target (components_lent base.now) (components_lent reference.now) }
    {
        let keeps_query = reference.authority.is_none() && reference.path.is_empty();
        Target {
            scheme: base.scheme,
            authority: reference.authority.or(base.authority),
            path,
            query: if keeps_query {
                reference.query.or(base.query)
            } else {
                reference.query
            },
            fragment: reference.fragment,
        }
    }

    // The text of the components (RFC 3986 section 5.3).
    fn recompose(&self, alloc: Global) -> Result<String, AllocError>
        ensures { IfOk result (λ t. string_bytes t ≡ text_of (components_held self.now)) }
    {
        let mut text = String::new(alloc);
        if let Some(scheme) = self.scheme {
            text.push_str(scheme)?;
            text.push(':')?;
        }
        push_with_mark(&mut text, "//", self.authority)?;
        text.push_str(self.path.as_str())?;
        push_with_mark(&mut text, "?", self.query)?;
        push_with_mark(&mut text, "#", self.fragment)?;
        Ok(text)
    }
}

/// Appends a component with its delimiter in front of it, if it is there.
fn push_with_mark(text: &mut String, mark: &str, component: Option<&str>) -> Result<(), AllocError>
    ensures { OnOk result (string_bytes text.new
        ≡ string_bytes text.old ++ with_mark_before mark.now (option_copied component.entry)) }
{
    if let Some(component) = component {
        text.push_str(mark)?;
        text.push_str(component)?;
    }
    Ok(())
}
