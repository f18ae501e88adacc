// The addresses that the value of a setting gives: one, or a list of them.
ghost use Rattle.std.specs.Prelude.{◌≡◌, ◌&&◌, ◌∷◌, [], IfOk, is_some, nat_le, option_map};
ghost use Rattle.std.specs.List.{list_all};
ghost use Rattle.toml.specs.View.{view, array_view};
ghost use Rattle.nr_config.specs.Keys.{address_of, addresses_of, bytes_of, list_of, texts_of};

use std::alloc::{AllocError, Global};
use toml::Value;
use toml::value::Array;

// Whether there may be so many addresses in a list.
fn are_few(count: usize) -> bool
    ensures { result ≡ (nat_le 1 count && nat_le count 16) }
{
    1 <= count && count <= 16
}

// The text of one address: any that isn't empty.
fn address_in(value: &Value) -> Option<&str>
    ensures { option_map (λ text. text.now) result ≡ address_of (view value.now) }
{
    match value.as_str() {
        Some(text) if !text.is_empty() => Some(text),
        _ => None,
    }
}

fn is_address(value: &Value) -> bool
    ensures { result ≡ is_some (address_of (view value.now)) }
{
    address_in(value).is_some()
}

fn are_addresses(items: &Array) -> bool
    ensures { result ≡ list_all (λ item. is_some (address_of (view item))) items.now.items }
{
    items.iter().all(is_address)
}

// Whether the items are addresses, and not too many.
#[tactic(auto, using(crate::proofs::Lists::listed, crate::proofs::Lists::unlisted))]
fn is_list(items: &Array) -> bool
    ensures { result ≡ is_some (list_of (array_view items.now)) }
{
    are_few(items.len()) && are_addresses(items)
}

/// Whether the value gives addresses.
#[tactic(auto, using(crate::proofs::Lists::given_by_array, crate::proofs::Lists::given_alone))]
pub fn gives_addresses(value: &Value) -> bool
    ensures { result ≡ is_some (addresses_of (view value.now)) }
{
    match value.as_array() {
        Some(items) => is_list(items),
        None => is_address(value),
    }
}

/// A list of this address alone.
pub fn only(alloc: Global, address: &str) -> Result<Vec<String>, AllocError>
    ensures { IfOk result (λ addresses. bytes_of addresses ≡ address.now ∷ []) }
{
    let mut addresses = Vec::new(alloc);
    addresses.push(String::from_str(alloc, address)?)?;
    Ok(addresses)
}

fn texts_in(alloc: Global, items: &Array) -> Result<Option<Vec<String>>, AllocError>
    ensures { IfOk result (λ texts. option_map bytes_of texts ≡ texts_of (array_view items.now)) }
{
    let mut texts = Vec::new(alloc);
    for item in items {
        let Some(text) = address_in(item) else {
            return Ok(None);
        };
        texts.push(String::from_str(alloc, text)?)?;
    }
    Ok(Some(texts))
}

fn list_in(alloc: Global, items: &Array) -> Result<Option<Vec<String>>, AllocError>
    ensures { IfOk result (λ texts. option_map bytes_of texts ≡ list_of (array_view items.now)) }
{
    match texts_in(alloc, items)? {
        Some(texts) if are_few(texts.len()) => Ok(Some(texts)),
        _ => Ok(None),
    }
}

fn alone_in(alloc: Global, value: &Value) -> Result<Option<Vec<String>>, AllocError>
    ensures { IfOk result (λ texts. option_map bytes_of texts ≡ option_map (λ text. text ∷ []) (address_of (view value.now))) }
{
    match address_in(value) {
        Some(text) => Ok(Some(only(alloc, text)?)),
        None => Ok(None),
    }
}

/// The addresses that the value gives, each in memory of its own.
pub fn addresses_in(alloc: Global, value: &Value) -> Result<Option<Vec<String>>, AllocError>
    ensures { IfOk result (λ addresses. option_map bytes_of addresses ≡ addresses_of (view value.now)) }
{
    match value.as_array() {
        Some(items) => list_in(alloc, items),
        None => alone_in(alloc, value),
    }
}
