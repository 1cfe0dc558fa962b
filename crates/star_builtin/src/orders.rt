//! Values in the order of their keys: `sorted`, `max` and `min` of the extended language, once their keys are there.
//!
//! Each item is beside its key, `(key, item)`. `star_eval` calls the function of `key`; `asked_to_sort` and `asked_for_best`
//! unpack the arguments before that, `sort_by` and `best_by` do the work after it.
//!
//! Keys that are all ints, or all strings, are sorted by the standard library's stable sort, and nothing is paid. Others
//! are merged as the definition merges them, since each comparison is paid, and the first that fails is the fault.

ghost use Rattle.std.specs.Prelude.{◌≡◌, IfOk, map, true};
ghost use Rattle.std.specs.List.{list_all};
ghost use Rattle.star_meaning.specs.Binding.{value_named};
ghost use Rattle.star_meaning.specs.Merging as merging;
ghost use Rattle.star_meaning.specs.Orders as orders;
ghost use Rattle.star_machine.specs.Refines.{Refines, RefinesBy};
ghost use Rattle.star_meaning.specs.Values.{content};
ghost use Rattle.star_builtin.specs.Best.{better};
ghost use Rattle.star_builtin.specs.Orders.{by_keys, precedes, shown_asked, shown_best};

use crate::best::Best;
use crate::sorted::{can_sort, order};
use star_machine::call::Call;
use star_machine::content::Content;
use star_machine::fault::{EvalError, fault_at};
use star_machine::machine::Machine;
use star_machine::setting::Setting;
use star_meaning::fault::FaultCode;
use star_meaning::given::KeywordArgument;
use star_store::values::{Cell, Value, Values};
use std::alloc::{AllocError, Global};
use std::cmp::Ordering;

/// How keys are compared: the depth and the line of comparisons, and whether the greatest goes first.
#[derive(Clone, Copy)]
pub struct Order<'a> {
    pub setting: &'a Setting<'a>,
    pub levels: u32,
    pub line: usize,
    pub backwards: bool,
}

/// What `sorted` is asked for: the items, the function of `key`, `reverse`.
#[derive(Drop)]
pub struct Sorting {
    pub items: Values,
    pub key: Option<Value>,
    pub backwards: bool,
}

/// What `max` or `min` is asked for: the items and the function of `key`.
#[derive(Drop)]
pub struct Candidates {
    pub items: Values,
    pub key: Option<Value>,
}

/// The keyword argument with this name: the first one.
pub(crate) fn value_named(name: &str, named: &[KeywordArgument]) -> Option<Value>
    ensures { result ≡ value_named name.now named.now }
{
    for value in named {
        if value.name.as_str() == name {
            return Some(value.value);
        }
    }
    None
}

/// Whether a name is given.
pub fn is_named(name: &str, named: &[KeywordArgument]) -> bool
    ensures { result ≡ orders.is_named name.now named.now }
{
    value_named(name, named).is_some()
}

/// Whether each name is `key` or `reverse`.
fn are_of_sorted(named: &[KeywordArgument]) -> bool
    ensures { result ≡ list_all orders.is_of_sorted named.now }
{
    for value in named {
        let name = value.name.as_str();
        if name != "key" && name != "reverse" {
            return false;
        }
    }
    true
}

/// The value of `reverse`: without one False. `BadType` unless it is a bool.
pub(crate) fn want_reverse(
    machine: &Machine,
    setting: &Setting,
    line: usize,
    reverse: Option<Value>,
) -> Result<bool, EvalError>
    ensures { Refines (orders.want_reverse setting.now line reverse machine.now) result machine.now }
{
    match reverse {
        Some(reverse) => machine.want_bool(setting, line, reverse),
        None => Ok(false),
    }
}

/// The function of `key`; `None` without one and for None. `BadType` for what cannot be called.
fn want_key(
    machine: &Machine,
    setting: &Setting,
    line: usize,
    key: Option<Value>,
) -> Result<Option<Value>, EvalError>
    ensures { Refines (orders.want_key setting.now line key machine.now) result machine.now }
{
    let Some(key) = key else {
        return Ok(None);
    };
    match machine.content(setting, key) {
        Content::Nothing => Ok(None),
        Content::BuiltInFunction(function) => {
            if !function.is_function() {
                return Err(fault_at(FaultCode::BadType, line));
            }
            Ok(Some(key))
        }
        Content::Held(Cell::Func(_)) | Content::Held(Cell::Bound(_, _)) => Ok(Some(key)),
        _ => Err(fault_at(FaultCode::BadType, line)),
    }
}

/// What `sorted` is asked for: `Args` for another number of values and for another keyword argument; `BadType` if `it` is
/// not iterable, `key` neither None nor a function, `reverse` not a bool; then all items.
pub fn asked_to_sort(machine: &mut Machine, call: &Call) -> Result<Sorting, EvalError>
    ensures { RefinesBy shown_asked (orders.asked_to_sort call.now.setting.now call.now.line call.now.given.now
        machine.old) result machine.new }
{
    let named = call.given.named.as_slice();
    if !are_of_sorted(named) {
        return Err(fault_at(FaultCode::Args, call.line));
    }
    let value = machine.only_one(call.line, call.given.positional.as_slice())?;
    let count = machine.count_of(call.setting, call.line, value)?;
    let key = want_key(machine, call.setting, call.line, value_named("key", named))?;
    let reverse = value_named("reverse", named);
    let backwards = want_reverse(machine, call.setting, call.line, reverse)?;
    let items = machine.take_items(call.setting, call.line, value, count)?;
    Ok(Sorting {
        items,
        key,
        backwards,
    })
}

/// What `max` or `min` is asked for: `Args` for no value and for a keyword argument but `key`; `BadType` if the one value
/// is not iterable, and if `key` is neither None nor a function; then all items of one value, or several values.
pub fn asked_for_best(machine: &mut Machine, call: &Call) -> Result<Candidates, EvalError>
    ensures { RefinesBy shown_best (orders.asked_for_best call.now.setting.now call.now.line call.now.given.now
        machine.old) result machine.new }
{
    let (values, key) = machine.with_name(call.line, "key", call.given)?;
    match values {
        [] => Err(fault_at(FaultCode::Args, call.line)),
        [value] => {
            let count = machine.count_of(call.setting, call.line, *value)?;
            let key = want_key(machine, call.setting, call.line, key)?;
            let items = machine.take_items(call.setting, call.line, *value, count)?;
            Ok(Candidates { items, key })
        }
        _ => {
            let key = want_key(machine, call.setting, call.line, key)?;
            let items = Values::new(Vec::from_slice(machine.alloc(), values)?);
            Ok(Candidates { items, key })
        }
    }
}

/// Each item with itself as its key.
pub fn each_by_itself(alloc: Global, items: &[Value]) -> Result<Vec<(Value, Value)>, AllocError>
    ensures { IfOk result (λ ps. ps.items ≡ map orders.by_itself items.now) }
{
    let mut pairs = Vec::with_capacity(alloc, items.len())?;
    for item in items {
        pairs.push((*item, *item))?;
    }
    Ok(pairs)
}

/// The keys of pairs.
fn keys_of(alloc: Global, pairs: &[(Value, Value)]) -> Result<Vec<Value>, AllocError>
    ensures { IfOk result (λ ks. ks.items ≡ map (λ p. p.0) pairs.now) }
{
    let mut keys = Vec::with_capacity(alloc, pairs.len())?;
    for pair in pairs {
        keys.push(pair.0)?;
    }
    Ok(keys)
}

/// The items of pairs.
fn items_of(alloc: Global, pairs: &[(Value, Value)]) -> Result<Vec<Value>, AllocError>
    ensures { IfOk result (λ xs. xs.items ≡ map (λ p. p.1) pairs.now) }
{
    let mut items = Vec::with_capacity(alloc, pairs.len())?;
    for pair in pairs {
        items.push(pair.1)?;
    }
    Ok(items)
}

/// The order of two pairs by their keys, which are ints or strings; backwards that of the second and the first.
fn by_keys(
    machine: &Machine,
    setting: &Setting,
    backwards: bool,
    x: (Value, Value),
    y: (Value, Value),
) -> Ordering
    ensures { result ≡ by_keys setting.now machine.now backwards x y }
{
    if backwards {
        order(machine, setting, y.0, x.0)
    } else {
        order(machine, setting, x.0, y.0)
    }
}

/// Pairs in order, whose keys are ints or strings. Equal ones keep their order.
fn in_order(
    machine: &Machine,
    setting: &Setting,
    backwards: bool,
    pairs: &[(Value, Value)],
) -> Result<Vec<(Value, Value)>, AllocError>
    requires { orders.can_sort (map (λ p. content setting.now machine.now p.0) pairs.now) ≡ true }
    ensures { IfOk result (λ r. r.items ≡ orders.sorted_free setting.now machine.now backwards pairs.now) }
{
    let mut items = Vec::from_slice(machine.alloc(), pairs)?;
    items.sort_by(|x, y| by_keys(machine, setting, backwards, *x, *y))?;
    Ok(items)
}

impl<'a> Order<'a> {
    /// Whether an item of this order goes before one in front of it.
    fn goes_first(&self, order: Ordering) -> bool
        ensures { result ≡ orders.goes_first self.now.backwards order }
    {
        if self.backwards {
            order.is_gt()
        } else {
            order.is_lt()
        }
    }

    /// Whether a pair goes before one in front of it, by their keys. `BadType` if the keys have no order.
    fn precedes(
        &self,
        machine: &mut Machine,
        rest: (Value, Value),
        front: (Value, Value),
    ) -> Result<bool, EvalError>
        ensures { Refines (precedes self.now rest front machine.old) result machine.new }
    {
        let order = machine.compare(self.setting, self.levels, self.line, rest.0, front.0)?;
        Ok(self.goes_first(order))
    }

    /// Two rows of pairs, each in order, as one.
    #[tactic(auto, using(crate::proofs::Merging::merged_alone, crate::proofs::Merging::rest_goes, crate::proofs::Merging::front_goes))]
    fn merged(
        &self,
        machine: &mut Machine,
        front: &[(Value, Value)],
        rest: &[(Value, Value)],
    ) -> Result<Vec<(Value, Value)>, EvalError>
        ensures { RefinesBy (λ ps. ps.items) (merging.merged (precedes self.now) front.now rest.now machine.old) result
            machine.new }
    {
        let mut front = front;
        let mut rest = rest;
        let mut made = Vec::new(machine.alloc());
        while let [x, more_front @ ..] = front {
            let [y, more_rest @ ..] = rest else {
                break;
            };
            if self.precedes(machine, *y, *x)? {
                made.push(*y)?;
                rest = more_rest;
            } else {
                made.push(*x)?;
                front = more_front;
            }
        }
        made.extend_from_slice(front)?;
        made.extend_from_slice(rest)?;
        Ok(made)
    }

    /// Pairs in order, halved at most this many times.
    fn halved(
        &self,
        machine: &mut Machine,
        depth: usize,
        pairs: &[(Value, Value)],
    ) -> Result<Vec<(Value, Value)>, EvalError>
        ensures { RefinesBy (λ ps. ps.items) (merging.halved (precedes self.now) depth pairs.now machine.old) result
            machine.new }
    {
        if depth == 0 || pairs.len() < 2 {
            return Ok(Vec::from_slice(machine.alloc(), pairs)?);
        }
        let (front, rest) = pairs.split_at(pairs.len() / 2);
        let front = self.halved(machine, depth - 1, front)?;
        let rest = self.halved(machine, depth - 1, rest)?;
        self.merged(machine, &front, &rest)
    }

    /// Pairs in order. `BadType` if two keys that are compared have no order.
    #[tactic(auto, using(crate::proofs::Keyed::contents_of_keys))]
    fn sorted(
        &self,
        machine: &mut Machine,
        pairs: &[(Value, Value)],
    ) -> Result<Vec<(Value, Value)>, EvalError>
        ensures { RefinesBy (λ ps. ps.items) (orders.sorted_pairs self.now.setting.now self.now.levels self.now.line
            self.now.backwards pairs.now machine.old) result machine.new }
    {
        let keys = keys_of(machine.alloc(), pairs)?;
        if can_sort(machine, self.setting, &keys) {
            return Ok(in_order(machine, self.setting, self.backwards, pairs)?);
        }
        self.halved(machine, pairs.len(), pairs)
    }
}

/// The items of pairs in the order of their keys, in a new list. `BadType` if two keys that are compared have no order.
pub fn sort_by(
    machine: &mut Machine,
    setting: &Setting,
    levels: u32,
    line: usize,
    backwards: bool,
    pairs: &[(Value, Value)],
) -> Result<Value, EvalError>
    ensures { Refines (orders.sort_by setting.now levels line backwards pairs.now machine.old) result machine.new }
{
    let order = Order {
        setting,
        levels,
        line,
        backwards,
    };
    let sorted = order.sorted(machine, pairs)?;
    let items = items_of(machine.alloc(), &sorted)?;
    machine.new_list(line, Values::new(items))
}

/// The item of the first best key: each key is compared with the best so far. `BadValue` without items, `BadType` if two
/// keys have no order.
pub fn best_by(
    machine: &mut Machine,
    setting: &Setting,
    levels: u32,
    line: usize,
    wanted: Best,
    pairs: &[(Value, Value)],
) -> Result<Value, EvalError>
    ensures { Refines (orders.best_by setting.now levels line (better wanted) pairs.now machine.old) result machine.new }
{
    let [first, rest @ ..] = pairs else {
        return Err(fault_at(FaultCode::BadValue, line));
    };
    let mut best = *first;
    for pair in rest {
        let order = machine.compare(setting, levels, line, pair.0, best.0)?;
        if wanted.prefers(order) {
            best = *pair;
        }
    }
    Ok(best.1)
}
