//! What is ordered: which other keys an order has depends on its `kind` and its `profile`.
ghost use Rattle.std.specs.Prelude.{◌≡◌, [], IfOk, Ok};
ghost use Rattle.toml_format.specs.Outcome.{and_then};
ghost use Rattle.toml_format.specs.ReaderView.{entries_view, seen};
ghost use Rattle.toml_format.specs.Values.{text_as};
ghost use Rattle.shelf_profile.specs.Preset.{preset_purposes};
ghost use Rattle.shelf_profile.specs.Order.{attribute_order, certificate_order, certificate_order_of, choice_of, choice_values, list_order, no_choice_of, no_choice_values, order_keys, order_kind, own_keys, request_order, request_order_of};

use crate::attribute_certificate::AttributeOrder;
use crate::certificate::{CertificateKeys, CertificateOrder, certificate_keys, certificate_of};
use crate::preset::{Preset, preset_purposes};
use crate::request::{RequestKeys, RequestOrder, request_keys, request_of};
use crate::revocation_list::ListOrder;
use std::alloc::{AllocError, Global};
use toml::Value;
use toml_format::{
    AltName, Entries, FromChoice, FromTable, FromText, FromValue, List, Purpose, Reason,
    TableReader, Text, read_chosen, read_fields, text_as,
};

/// What is ordered.
#[derive(Clone, Copy, Debug, PartialEq, Eq)]
pub enum OrderKind {
    /// A certificate (RFC 5280, 4).
    Certificate,
    /// A request for one (RFC 2986).
    Request,
    /// A revocation list (RFC 5280, 5).
    List,
    /// An attribute certificate (RFC 5755).
    Attribute,
}

impl FromText for OrderKind {
    ghost from_text = { order_kind };

    #[tactic(auto, unfolding(crate::specs::Order::order_kind))]
    fn from_text(_alloc: Global, text: &str) -> Result<Option<OrderKind>, AllocError> {
        Ok(match text {
            "certificate" => Some(OrderKind::Certificate),
            "request" => Some(OrderKind::Request),
            "list" => Some(OrderKind::List),
            "attribute" => Some(OrderKind::Attribute),
            _ => None,
        })
    }
}

impl FromValue for OrderKind {
    ghost format = { text_as order_kind };

    fn from_value(alloc: Global, value: &Value) -> Result<Result<OrderKind, Reason>, AllocError> {
        text_as(alloc, value)
    }
}

/// What decides which other keys an order has, and their defaults.
#[derive(Clone, Copy, Debug, PartialEq, Eq)]
pub struct OrderChoice {
    /// What is ordered. Required.
    pub kind: OrderKind,
    /// What the certificate is to be used for, if the order says so. Lists and attribute
    /// certificates have none.
    pub preset: Option<Preset>,
}

impl FromTable for OrderChoice {
    type Keys = (((), OrderKind), Option<Preset>);

    ghost keys = { choice_values };

    ghost of_keys = { choice_of };

    #[tactic(auto, unfolding(crate::specs::Order::choice_values))]
    fn keys<'a>(
        alloc: Global,
        entries: Entries<'a>,
    ) -> Result<TableReader<'a, Self::Keys>, AllocError> {
        let reader = TableReader::new(entries)
            .required(alloc, "kind")?
            .optional(alloc, "profile")?;
        Ok(reader)
    }

    #[tactic(auto, unfolding(crate::specs::Order::choice_of))]
    fn of_keys(values: Self::Keys) -> Result<OrderChoice, Reason> {
        let (((), kind), preset) = values;
        match (kind, preset) {
            (OrderKind::List, Some(_)) => Err(Reason::WrongValue),
            (OrderKind::Attribute, Some(_)) => Err(Reason::WrongValue),
            _ => Ok(OrderChoice { kind, preset }),
        }
    }
}

/// Where it isn't known what is ordered, no other key is known.
#[derive(Drop)]
pub struct NoOrder;

impl FromTable for NoOrder {
    type Keys = ();

    ghost keys = { no_choice_values };

    ghost of_keys = { no_choice_of };

    #[tactic(auto, unfolding(crate::specs::Order::no_choice_values))]
    fn keys<'a>(
        _alloc: Global,
        entries: Entries<'a>,
    ) -> Result<TableReader<'a, Self::Keys>, AllocError> {
        Ok(TableReader::new(entries))
    }

    #[tactic(auto, unfolding(crate::specs::Order::no_choice_of))]
    fn of_keys(_values: ()) -> Result<NoOrder, Reason> {
        Ok(NoOrder)
    }
}

/// What is ordered, and what it is to say.
#[derive(Drop)]
pub enum Order {
    /// `certificate`, for this use.
    Certificate(CertificateOrder, Option<Preset>),
    /// `request`.
    Request(RequestOrder),
    /// `list`.
    List(ListOrder),
    /// `attribute`.
    Attribute(AttributeOrder),
}

/// The order of a certificate, where its keys are read.
fn certificate_read(
    preset: Option<Preset>,
    no_names: List<AltName>,
    purposes: List<Purpose>,
    read: Result<CertificateKeys, Reason>,
) -> Result<Order, Reason>
    requires no_names { no_names ≡ [] }
    requires purposes { purposes ≡ preset_purposes preset }
    ensures { result ≡ and_then read (certificate_order_of preset) }
{
    match read {
        Ok(values) => match certificate_of(no_names, purposes, values) {
            Ok(order) => Ok(Order::Certificate(order, preset)),
            Err(reason) => Err(reason),
        },
        Err(reason) => Err(reason),
    }
}

#[tactic(auto, unfolding(toml_format::specs::TableReading::read_checked, toml_format::specs::TableReading::read_fields, toml_format::specs::ReaderView::seen))]
fn certificate_order<'a>(
    alloc: Global,
    preset: Option<Preset>,
    entries: Entries<'a>,
) -> Result<TableReader<'a, Order>, AllocError>
    ensures { IfOk result (λ reader. seen reader ≡ (certificate_order preset).read (entries_view entries.entry)) }
{
    let no_names = List::new(alloc);
    let purposes = preset_purposes(alloc, preset)?;
    let TableReader { left, read } = certificate_keys(alloc, preset, entries)?;
    let read = certificate_read(preset, no_names, purposes, read);
    Ok(TableReader { left, read })
}

/// The order of a request, where its keys are read.
fn request_read(
    no_points: List<List<Text>>,
    read: Result<RequestKeys, Reason>,
) -> Result<Order, Reason>
    requires { no_points ≡ [] }
    ensures { result ≡ and_then read request_order_of }
{
    match read {
        Ok(values) => match request_of(no_points, values) {
            Ok(order) => Ok(Order::Request(order)),
            Err(reason) => Err(reason),
        },
        Err(reason) => Err(reason),
    }
}

#[tactic(auto, unfolding(toml_format::specs::TableReading::read_checked, toml_format::specs::TableReading::read_fields, toml_format::specs::ReaderView::seen))]
fn request_order<'a>(
    alloc: Global,
    preset: Option<Preset>,
    entries: Entries<'a>,
) -> Result<TableReader<'a, Order>, AllocError>
    ensures { IfOk result (λ reader. seen reader ≡ (request_order preset).read (entries_view entries.entry)) }
{
    let no_points = List::new(alloc);
    let TableReader { left, read } = request_keys(alloc, preset, entries)?;
    let read = request_read(no_points, read);
    Ok(TableReader { left, read })
}

#[tactic(auto, unfolding(toml_format::specs::TableReading::read_checked, toml_format::specs::TableReading::read_fields, toml_format::specs::ReaderView::seen))]
fn list_order<'a>(alloc: Global, entries: Entries<'a>) -> Result<TableReader<'a, Order>, AllocError>
    ensures { IfOk result (λ reader. seen reader ≡ list_order.read (entries_view entries.entry)) }
{
    let TableReader { left, read } = read_fields::<ListOrder>(alloc, entries)?;
    Ok(TableReader {
        left,
        read: read.map(Order::List),
    })
}

#[tactic(auto, unfolding(toml_format::specs::TableReading::read_checked, toml_format::specs::TableReading::read_fields, toml_format::specs::ReaderView::seen))]
fn attribute_order<'a>(
    alloc: Global,
    entries: Entries<'a>,
) -> Result<TableReader<'a, Order>, AllocError>
    ensures { IfOk result (λ reader. seen reader ≡ attribute_order.read (entries_view entries.entry)) }
{
    let TableReader { left, read } = read_fields::<AttributeOrder>(alloc, entries)?;
    Ok(TableReader {
        left,
        read: read.map(Order::Attribute),
    })
}

impl FromChoice for Order {
    type Choice = OrderChoice;

    type All = NoOrder;

    ghost own = { own_keys };

    fn own<'a>(
        alloc: Global,
        choice: OrderChoice,
        entries: Entries<'a>,
    ) -> Result<TableReader<'a, Order>, AllocError> {
        match choice.kind {
            OrderKind::Certificate => certificate_order(alloc, choice.preset, entries),
            OrderKind::Request => request_order(alloc, choice.preset, entries),
            OrderKind::List => list_order(alloc, entries),
            OrderKind::Attribute => attribute_order(alloc, entries),
        }
    }
}

impl FromTable for Order {
    type Keys = Order;

    ghost keys = { order_keys };

    ghost of_keys = { λ order. Ok order };

    fn keys<'a>(
        alloc: Global,
        entries: Entries<'a>,
    ) -> Result<TableReader<'a, Self::Keys>, AllocError> {
        read_chosen::<Order>(alloc, entries)
    }

    fn of_keys(order: Order) -> Result<Order, Reason> {
        Ok(order)
    }
}
