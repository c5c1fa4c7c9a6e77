//! Objects by their words and fields.

ghost use Rattle.std.specs.Prelude.{◌≡◌, ℕ, List, ◌++◌, map};
ghost use Rattle.std.specs.List.{AllByRecursion};
ghost use Rattle.json_laws.specs.Objects.{Object, IsObject, IsPrintableLine, json_of, jsons_of, told};

/// An object determines its word, the keys of its fields and their values, and where it ends.
pub fn an_object_tells_its_fields()
    ensures { (a b : Object) (after more : List ℕ) → IsObject a → IsObject b → json_of a ++ after ≡ json_of b ++ more → (told a ≡ told b) × (after ≡ more) }
{}

/// Objects in sequence show how many they are, and each what it determines alone.
pub fn objects_tell_their_fields()
    ensures { (os ps : List Object) → AllByRecursion IsObject os → AllByRecursion IsObject ps → jsons_of os ≡ jsons_of ps → map told os ≡ map told ps }
{}

/// An object is one line of printable ASCII.
pub fn an_object_is_a_printable_line()
    ensures { (o : Object) → IsObject o → IsPrintableLine (json_of o) }
{}
