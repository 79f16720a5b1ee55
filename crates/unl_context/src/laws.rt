//! Laws on the fields and properties that are set by the pairs of a query. Each law is the contract of a function that
//! does nothing.
ghost use Rattle.unl_context.specs.Laws.{LastFieldCounts, LastPropertyCounts, SetNamesRise};

/// A field has the value of the last pair whose key is the field's name, or is absent if there is no such pair.
pub fn last_field_counts()
    ensures { LastFieldCounts }
{}

/// If x is not empty, the property x has the value of the last pair with the key `properties[x]`. If there is no such
/// pair, it has that of the last pair with the key x, provided that x is not the name of a field and not of the form
/// `properties[y]` with a nonempty y. Otherwise it is absent. There is no property with an empty name.
pub fn last_property_counts()
    ensures { LastPropertyCounts }
{}

/// The names of the properties that a query sets are in byte order, without duplicates.
pub fn set_names_rise()
    ensures { SetNamesRise }
{}
