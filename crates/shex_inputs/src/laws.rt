//! The laws of inputs, for callers' proofs: the contract of each function is the law, and it does nothing when called.

ghost use Rattle.shex_inputs.specs.Laws.{InputsAreOne, LabelsHaveLines, SchemasAreNotLeft, TakenByBytes, TakenIsLoaded};

/// What files that are told hold is one thing: it is taken, or one file is refused or absent.
pub fn inputs_are_one()
    ensures { InputsAreOne }
{
    taken_is_loaded();
    schema_files::sources_are_one();
    schema_files::read_is_not_left();
    schema_files::refused_is_one();
    schema_load::laws::documents_stand_for_one();
    schema_tree::laws::strata_are_least();
    data_reader::data_are_one();
    shape_map::laws::maps_are_one();
}

/// Where the schema is taken of files that are told, none of its files is refused or absent.
pub fn schemas_are_not_left()
    ensures { SchemasAreNotLeft }
{
    taken_is_loaded();
    schema_files::sources_are_one();
    schema_files::read_is_not_left();
    schema_files::refused_is_one();
    schema_load::laws::documents_stand_for_one();
    schema_tree::laws::strata_are_least();
    data_reader::data_are_one();
    shape_map::laws::maps_are_one();
}

/// The schema that files hold is loaded.
pub fn taken_is_loaded()
    ensures { TakenIsLoaded }
{
    schema_reader::schemas_are_ordered();
    schema_load::laws::standing_is_loaded();
}

/// The schema and the data are taken by the bytes of their files alone, whatever other files hold and whichever map is named.
pub fn taken_by_bytes()
    ensures { TakenByBytes }
{}

/// The base and the prefixes of the labels are on one line each, where the schema's base is.
pub fn labels_have_lines()
    ensures { LabelsHaveLines }
{
    schema_reader::names_have_lines();
}
