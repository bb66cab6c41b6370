// A number and a text that are none of the constants of some instances.
ghost use Rattle.std.specs.Prelude.{◌≡◌, ◌<◌, ◌^◌, IfOk, length};
ghost use Rattle.pj_cert.specs.Instances.{constants_of};
ghost use Rattle.pj_cert.specs.Fresh.{first_free as free_place, free_number, free_text, longest, text_length as bytes_of, with_mark, with_marks};

use pj_shape::Instance;
use pj_value::{List, NoMemory, SharedText, Value};
use std::alloc::Global;

/// The least number from 0 on that is no listed constant.
pub fn fresh_number(alloc: Global, listed: &[Instance]) -> Result<u32, NoMemory>
    requires { length (constants_of listed.now) < 2 ^ 32 }
    ensures { IfOk result (λ n. n ≡ free_number (constants_of listed.now)) }
{
    let count = count_of(listed);
    let mut taken = vec![in alloc; false; count]?;
    mark_listed(listed, taken.as_mut_slice());
    Ok(first_free(taken.as_slice()))
}

/// As many `a` as one more than the longest listed text constant has bytes.
pub fn fresh_text(alloc: Global, listed: &[Instance]) -> Result<SharedText, NoMemory>
    ensures { IfOk result (λ text. text ≡ free_text (constants_of listed.now)) }
{
    let count = longest_listed(listed);
    let mut letters = List::of(vec![in alloc; b'a'; count]?);
    letters.push(b'a')?;
    SharedText::of(alloc, letters)
}

fn count_of(listed: &[Instance]) -> usize
    requires { length (constants_of listed.now) < 2 ^ 32 }
    ensures { result ≡ length (constants_of listed.now) }
{
    let mut count: usize = 0;
    for instance in listed {
        count += instance.constants.len();
    }
    count
}

fn mark_listed(listed: &[Instance], taken: &mut [bool])
    ensures { taken.new ≡ with_marks taken.old (constants_of listed.now) }
{
    for instance in listed {
        mark_all(instance.constants.as_slice(), taken);
    }
}

fn mark_all(values: &[Value], taken: &mut [bool])
    ensures { taken.new ≡ with_marks taken.old values.now }
{
    for value in values {
        mark(value, taken);
    }
}

fn mark(value: &Value, taken: &mut [bool])
    ensures { taken.new ≡ with_mark taken.old value.now }
{
    match value {
        Value::Int(n) => {
            if *n >= 0 && (*n as u64) < taken.len() as u64 {
                taken[*n as usize] = true;
            }
        }
        Value::Text(_) => {}
    }
}

fn first_free(taken: &[bool]) -> u32
    requires { length taken.now < 2 ^ 32 }
    ensures { result ≡ free_place 0 taken.now }
{
    for (n, mark) in taken.iter().enumerate() {
        if !*mark {
            return n as u32;
        }
    }
    taken.len() as u32
}

fn longest_listed(listed: &[Instance]) -> usize
    ensures { result ≡ longest (constants_of listed.now) }
{
    let mut most: usize = 0;
    for instance in listed {
        most = most.max(longest_of(instance.constants.as_slice()));
    }
    most
}

fn longest_of(values: &[Value]) -> usize
    ensures { result ≡ longest values.now }
{
    let mut most: usize = 0;
    for value in values {
        most = most.max(text_length(value));
    }
    most
}

fn text_length(value: &Value) -> usize
    ensures { result ≡ bytes_of value.now }
{
    match value {
        Value::Int(_) => 0,
        Value::Text(text) => text.len(),
    }
}
