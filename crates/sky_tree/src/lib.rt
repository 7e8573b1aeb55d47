//! The file tree in memory: it does the procedures of NFS version 3 as the definitions of `sky_nfs` say.
#![tactic(auto)]

mod allowed;
mod attr_changes;
mod attribute_rules;
mod attributes;
mod changes;
mod create;
mod create_file;
mod filesystem;
mod handle;
mod link;
mod lookup;
mod mknod;
mod name_rules;
mod page;
mod predict;
mod predict_create;
mod predict_link;
mod predict_make;
mod predict_remove;
mod predict_rename;
mod predict_set;
mod read;
mod read_dir;
mod readings;
mod remove;
mod rename;
mod rename_rules;
mod results;
mod rules;
mod setattr;
mod shown;
mod tree;
mod write;

pub use tree::Tree;
