//! Two images with a directory and a file, written out block by block, that represent their trees.
//!
//! They show that volumes with files exist in both formats. So theorems about images that represent a tree are not
//! empty.

ghost use Rattle.adf_block.specs.declared.layout.Format.TheVariants.{Ofs, Ffs};
ghost use Rattle.ados_model.specs.Stands.{Stands};
ghost use Rattle.ados_model.specs.Small.{image, tree, HasHello};

/// The OFS image represents the tree, and the tree has the file.
pub fn ofs_image_stands()
    ensures stands { Stands (image Ofs) (tree Ofs) }
    ensures hello { HasHello (tree Ofs) }
{}

/// The FFS image represents the same tree in that format.
pub fn ffs_image_stands()
    ensures stands { Stands (image Ffs) (tree Ffs) }
    ensures hello { HasHello (tree Ffs) }
{}
