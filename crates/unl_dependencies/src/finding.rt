//! Finds a feature by its name.
ghost use Rattle.std.specs.Prelude.{◌≡◌, All, IfSome, option_map};
ghost use Rattle.unl_documents.specs.Chunks.{joined};
ghost use Rattle.unl_documents.specs.Valid.{IsValidFeature};
ghost use Rattle.unl_dependencies.specs.Evaluation.{feature_named as feature_with};

use unl_documents::{Chunk, ChunkedList, Feature, Shared};

/// Returns the first feature with the given name, if the list has one. Does not allocate.
pub fn feature_named<'a>(features: &'a ChunkedList<Feature>, name: &str) -> Option<&'a Feature>
    ensures value { option_map (λ f. f.now) result ≡ feature_with name.now features.now }
    ensures valid { All IsValidFeature features.now → IfSome result (λ f. IsValidFeature f.now) }
{
    first_in_chunks(features.chunks(), name)
}

fn first_in_chunks<'a>(chunks: &'a [Chunk<Feature>], name: &str) -> Option<&'a Feature>
    ensures { option_map (λ f. f.now) result ≡ feature_with name.now (joined chunks.now) }
{
    for chunk in chunks {
        if let Some(feature) = first_named(chunk.get().as_slice(), name) {
            return Some(feature);
        }
    }
    None
}

fn first_named<'a>(features: &'a [Shared<Feature>], name: &str) -> Option<&'a Feature>
    ensures { option_map (λ f. f.now) result ≡ feature_with name.now features.now }
{
    for shared in features {
        let feature = shared.get();
        if feature.name.as_str() == name {
            return Some(feature);
        }
    }
    None
}
